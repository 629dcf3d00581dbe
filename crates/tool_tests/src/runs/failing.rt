// Sources and sinks that fail, and what such runs leave behind.
use crate::runs::GATE;
use crate::runs::runner::{AMPLE, Limits, Runner};

/// Runs with a source or a sink that fails. No run makes a call of the source with the number 99.
pub const CASES: &[u8] = b"
> lift [99 99 99] -- an empty text is no pattern
== 8
G1 NoHeader line 1
> make --seed 1 --size 2 [0 999 0] -- `make` and `self` read nothing: the first call of the source would fail
== 0
.model made
.inputs i0 i1 i2 i3
.outputs g1 q0 q1
.latch i2 q0 0
.latch i3 q1 1
.names q0 i3 g0
10 1
01 1
.names g0 g0 g1
11 0
.end
> self --seed 1 --size 2 --cycles 4 [0 999 0]
== 0
weight 22
lanes ...
sim g1=1011
eval g1=1011
sim q0=0111
eval q0=0111
sim q1=1001
eval q1=1001
> [99 99 0] -- neither sink holds anything if the line of a refusal fails at once
== 6
@ gate
> compile [9 179 99] -- a failure is reported as far as the errors have room
== 6
#C BLIFWW 2 P 32 L 32 C 1
#C BLIFWW IN 0 8 a
#C BLIFWW IN 0 24 b
#C BLIFWW OUT 32 8 y
#C BLIFWW NET 0 8 0 a -
#C BLIFWW NET 0 24 0 b -
#C BLIFWW NET 31 8 31 y -
x = 33, y = 32, ru== err
write fault
> compile [9 179 5]
== 6
#C BLIFWW 2 P 32 L 32 C 1
#C BLIFWW IN 0 8 a
#C BLIFWW IN 0 24 b
#C BLIFWW OUT 32 8 y
#C BLIFWW NET 0 8 0 a -
#C BLIFWW NET 0 24 0 b -
#C BLIFWW NET 31 8 31 y -
x = 33, y = 32, ru== err
write> compile [0 321 99] -- each read that fails is told: four for the text, and one that finds its end
== 5
read fault
> compile [1 321 99]
== 5
read fault
> compile [2 321 99]
== 5
read fault
> compile [3 321 99]
== 5
read fault
> compile [4 321 99]
== 5
read fault
> compile [1 321 4]
== 6
read> [0 321 20]
== 6
usage: blifww compil> window --gen 1 --x 0 --y 0 --width 3 --height 2 [0 321 99]
== 5
read fault
> make --seed 1 --size 2 [0 0 99]
== 6
write fault
> lift [99 99 99] -- a netlist is no pattern
== 8
G1 NoHeader line 1
> compile [99 1 99] -- the output is cut off if there is no room for it
== 6
#== err
write fault
> route [99 100 99]
== 6
#C gate OR-E 2 0 2
#C gate LONE-E 0 0 0
#C gate LONE-E 0 3 0
#C gate LONE-E 6 0 6
#C wire 0 0 E 2 0 == err
write fault
> route [99 356 99]
== 6
#C gate OR-E 2 0 2
#C gate LONE-E 0 0 0
#C gate LONE-E 0 3 0
#C gate LONE-E 6 0 6
#C wire 0 0 E 2 0 -
#C wire 0 3 SE 2 4 -
#C wire 4 2 NE 6 0 -
#C BLIFWW 2 P 10 L 6 C 1
#C BLIFWW IN 0 0 a
#C BLIFWW IN 0 3 b
#C BLIFWW OUT 6 0 y
#C BLIFWW NET 0 0 0 a -
#C BLIFWW NET 0 3 0 b -
#C BLIFWW NET 4 2 4 y -
x = 7, y = 5, rule = WireWorld
3C3.C$3.C.C$2.3C$C2.C$.2C!== err
write fault
> route [99 357 7] -- the output is whole if the line beside it is cut off
== 6
#C gate OR-E 2 0 2
#C gate LONE-E 0 0 0
#C gate LONE-E 0 3 0
#C gate LONE-E 6 0 6
#C wire 0 0 E 2 0 -
#C wire 0 3 SE 2 4 -
#C wire 4 2 NE 6 0 -
#C BLIFWW 2 P 10 L 6 C 1
#C BLIFWW IN 0 0 a
#C BLIFWW IN 0 3 b
#C BLIFWW OUT 6 0 y
#C BLIFWW NET 0 0 0 a -
#C BLIFWW NET 0 3 0 b -
#C BLIFWW NET 4 2 4 y -
x = 7, y = 5, rule = WireWorld
3C3.C$3.C.C$2.3C$C2.C$.2C!
== err
box 7 x> compile [99 321 0] -- there is just enough room for the output, and none for errors
== 0
#C BLIFWW 2 P 32 L 32 C 1
#C BLIFWW IN 0 8 a
#C BLIFWW IN 0 24 b
#C BLIFWW OUT 32 8 y
#C BLIFWW NET 0 8 0 a -
#C BLIFWW NET 0 24 0 b -
#C BLIFWW NET 31 8 31 y -
x = 33, y = 32, rule = WireWorld
8$5C18.10C$5.C16.C$6.C14.C$7.C12.C$8.C10.C$9.C.2C5.C$10.2C.C3.C$11.2C.
C.C$15.C$11.2C.C$10.2C.C$9.C.2C$8.C$7.C$6.C$5.C$5C26.C!
@ gate's pattern
> simulate --cycles 4 a=0011 b=0101 [99 7 0]
== 0
y=0111
> simulate --cycles 4 a=0011 b=0101 [99 4 99]
== 6
y=01== err
write fault
> lift [99 20 99]
== 6
.model lifted
.input== err
write fault
> simulate --cycles 1 a=0 b=1 [0 99 99] -- each command tells that the source fails, or that the output does
== 5
read fault
> simulate --cycles 1 a=0 b=1 [99 0 99]
== 6
write fault
> probe --cycles 1 --net y a=0 b=1 [0 99 99]
== 5
read fault
> probe --cycles 1 --net y a=0 b=1 [99 0 99]
== 6
write fault
> window --gen 0 --x 0 --y 0 --width 1 --height 1 a= b= [0 99 99]
== 5
read fault
> window --gen 0 --x 0 --y 0 --width 1 --height 1 a= b= [99 0 99]
== 6
write fault
> vcd --cycles 1 a=0 b=1 [0 99 99]
== 5
read fault
> vcd --cycles 1 a=0 b=1 [99 0 99]
== 6
write fault
> lift [0 99 99]
== 5
read fault
> lift [99 0 99]
== 6
write fault
@ heavy
> route [99 3000 99] -- the output is cut off after the notice, and nothing is drawn if the notice is cut off
== 6
#C gate FORK-E 2 0 2
...== err
drawing a netlist of weight 401: this may take some time
write fault
> route [99 9999 20]
== 6
== err
drawing a netlist of> route [99 9999 57]
== 6
#C gate FORK-E 2 0 2
...
== err
drawing a netlist of weight 401: this may take some time
> route [99 9999 62]
== 6
#C gate FORK-E 2 0 2
...
== err
drawing a netlist of weight 401: this may take some time
box 2@ inverter
> eval --cycles 4 a=0110 [0 99 99]
== 5
read fault
> eval --cycles 4 a=0110 [99 0 99]
== 6
write fault
> tape --cycles 1 a=0 [0 99 99]
== 5
read fault
> tape --cycles 1 a=0 [99 0 99]
== 6
write fault
@ circuit
> aiger [0 99 99]
== 5
read fault
> aiger [99 0 99]
== 6
write fault
";

// Whether a run over the gate ends with this status and these counts, as it does not if it calls a sink again that has
// failed. The calls of `out` fail from the one with number `fails.0` on, and those of `err` from `fails.1` on.
fn are_counts(
    runner: &mut Runner,
    command: &str,
    fails: (usize, usize),
    status: u8,
    faults: (u64, u64),
    lengths: (usize, usize),
) -> bool {
    let limits = Limits {
        rooms: (99, 99),
        fails,
        ..AMPLE
    };
    runner.run_all(command, GATE, limits);
    runner.has_counts(status, faults, lengths)
}

/// Returns the first runs of which one calls a sink again that has failed.
pub fn wrong_counts(runner: &mut Runner) -> Option<&'static str> {
    for call in 0..9 {
        if !are_counts(runner, "", (0, call), 6, (0, 1), (0, 7 * call)) {
            return Some("the calls of `err`");
        }
        if !are_counts(runner, "compile", (call, 12), 6, (1, 0), (7 * call, 12)) {
            return Some("the calls of `out`");
        }
    }
    // All calls fail: the first call of each sink is its last. The usage line has 79 bytes.
    if are_counts(runner, "compile", (0, 0), 6, (1, 1), (0, 0))
        && are_counts(runner, "", (0, 12), 2, (0, 0), (0, 79))
    {
        None
    } else {
        Some("the first call of each sink")
    }
}
