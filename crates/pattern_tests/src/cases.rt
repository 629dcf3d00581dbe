// Patterns, with the lines of their gates and wires, or what is at fault and where.

/// Small circuits. A line that begins with `>` parts two cases, and says what the next one shows; then come its text
/// and, after `== `, the lines of what is found in it, or the fault, its column and its row.
pub const CASES: &str = "\
two gates
#C BLIFWW 2 P 20 L 25 C 1
#C BLIFWW IN 1 1 a
#C BLIFWW IN 1 7 b
#C BLIFWW IN 1 10 c
#C BLIFWW OUT 26 6 y
x = 27, y = 11, rule = WireWorld
$.8C$9.C$8.4C$8.C2.8C$8.4C7.C$9.C8.9C$.8C10.C$18.C$17.C$.16C!

== #C gate XOR-E 8 1 7
#C gate OR-E 18 4 17
#C gate LONE-E 1 1 0
#C gate LONE-E 1 7 0
#C gate LONE-E 1 10 0
#C gate LONE-E 26 6 25
#C wire 1 1 E 8 1 -
#C wire 1 7 E 8 7 -
#C wire 12 4 E 18 4 -
#C wire 1 10 E 18 8 -
#C wire 20 6 E 26 6 -

> a cell of a gate is missing
#C BLIFWW 2 P 20 L 25 C 1
#C BLIFWW IN 1 1 a
#C BLIFWW IN 1 7 b
#C BLIFWW IN 1 10 c
#C BLIFWW OUT 26 6 y
x = 27, y = 11, rule = WireWorld
$.8C$9.C$8.4C$11.8C$8.4C7.C$9.C8.9C$.8C10.C$18.C$17.C$.16C!

== Gate 8 4

> a cell of a wire is missing
#C BLIFWW 2 P 20 L 25 C 1
#C BLIFWW IN 1 1 a
#C BLIFWW IN 1 7 b
#C BLIFWW IN 1 10 c
#C BLIFWW OUT 26 6 y
x = 27, y = 11, rule = WireWorld
$.8C$9.C$8.4C$8.C2.4C.3C$8.4C7.C$9.C8.9C$.8C10.C$18.C$17.C$.16C!

== Wire 14 4

> a cell is beside a gate
#C BLIFWW 2 P 20 L 25 C 1
#C BLIFWW IN 1 1 a
#C BLIFWW IN 1 7 b
#C BLIFWW IN 1 10 c
#C BLIFWW OUT 26 6 y
x = 27, y = 11, rule = WireWorld
$.8C$9.C2.C$8.4C$8.C2.8C$8.4C7.C$9.C8.9C$.8C10.C$18.C$17.C$.16C!

== Gate 12 2

> a third cell is beside a wire
#C BLIFWW 2 P 20 L 25 C 1
#C BLIFWW IN 1 1 a
#C BLIFWW IN 1 7 b
#C BLIFWW IN 1 10 c
#C BLIFWW OUT 26 6 y
x = 27, y = 11, rule = WireWorld
$.8C$4.C4.C$8.4C$8.C2.8C$8.4C7.C$9.C8.9C$.8C10.C$18.C$17.C$.16C!

== Wire 3 1

> an input is missing
#C BLIFWW 2 P 20 L 25 C 1
#C BLIFWW IN 1 1 a
#C BLIFWW IN 1 7 b
#C BLIFWW IN 1 10 c
#C BLIFWW OUT 26 6 y
x = 27, y = 11, rule = WireWorld
$2.7C$9.C$8.4C$8.C2.8C$8.4C7.C$9.C8.9C$.8C10.C$18.C$17.C$.16C!

== Port 1 1

> a crossing
#C BLIFWW 2 P 30 L 20 C 1
#C BLIFWW IN 7 1 a
#C BLIFWW IN 1 7 b
#C BLIFWW OUT 27 5 y
#C BLIFWW OUT 21 3 z
x = 28, y = 8, rule = WireWorld
$7.4C$11.C.C$10.12C$10.C2.C$10.18C$11.C.C$.10C!

== #C gate CROSS-E 10 1 3 6
#C gate LONE-E 7 1 0
#C gate LONE-E 1 7 0
#C gate LONE-E 27 5 20
#C gate LONE-E 21 3 20
#C wire 7 1 E 10 1 -
#C wire 1 7 E 10 7 -
#C wire 14 3 E 21 3 -
#C wire 14 5 E 27 5 -

> a crossing whose lower input comes first
#C BLIFWW 2 P 30 L 20 C 1
#C BLIFWW IN 1 1 a
#C BLIFWW IN 7 7 b
#C BLIFWW OUT 21 5 y
#C BLIFWW OUT 27 3 z
x = 28, y = 8, rule = WireWorld
$.10C$11.C.C$10.18C$10.C2.C$10.12C$11.C.C$7.4C!

== #C gate CROSS-e 10 1 3 6
#C gate LONE-E 1 1 0
#C gate LONE-E 7 7 0
#C gate LONE-E 21 5 20
#C gate LONE-E 27 3 20
#C wire 1 1 E 10 1 -
#C wire 7 7 E 10 7 -
#C wire 14 3 E 27 3 -
#C wire 14 5 E 21 5 -

> a loop
#C BLIFWW 2 P 29 L 25 C 1
#C BLIFWW IN 1 1 e
#C BLIFWW OUT 26 3 q
x = 27, y = 10, rule = WireWorld
$.12C$13.C$12.4C5.6C$12.C2.6C$12.4C5.C$13.C7.C$9.4C8.C$8.C12.C$9.6CAB4C!

== #C gate XOR-E 12 1 11
#C gate LONE-E 1 1 0
#C gate LONE-E 26 3 25
#C gate LONE-E 20 4 19
#C wire 1 1 E 12 1 -
#C wire 20 4 SE 12 7 1
#C wire 16 4 E 20 4 -
#C wire 20 4 NE 26 3 -
";
