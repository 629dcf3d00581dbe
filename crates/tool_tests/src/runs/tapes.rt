// Runs of `tape`. After a tape's cycles come zeros.

/// Tapes, and texts and words that give none. The port table of a tape has no inputs. In the tape
/// of the gate for two cycles, the cells that the table names stand 32 cells further east.
pub const CASES: &[u8] = b"
> tape --cycles 4 -- texts that give no tape
.model m
.outputs y
.names z y
1 1
== 1
B14 Undriven line 3: z
> tape --cycles 4
.model m
.inputs a
.outputs x
.names x a x
11 1
.end
== 3
loop: x
> tape --cycles 4 d=0010 | simulate --cycles 6
.model r
.inputs d
.outputs q
.latch d q 1
.end
== 0
q=100100
> tape --cycles 3 a=011 | simulate --cycles 5
.model n
.inputs a
.outputs y
.names a y
0 1
== 0
y=10011
@ gate
> tape --cycles 2 a=01 b=11 -- streams lie before the gate
== 0
#C BLIFWW 2 P 32 L 32 C 1
#C BLIFWW OUT 64 8 y
#C BLIFWW NET 32 8 0 a -
#C BLIFWW NET 32 24 0 b -
#C BLIFWW NET 63 8 31 y -
x = 65, y = 32, rule = WireWorld
8$A36C18.10C$...A30CBA4C
26.C!
> tape --cycles 2 a=01 -- texts that give no tape
== 9
stream: MissingInput b
> tape --cycles 2 a=01 b=0
== 9
stream: BadLength b=0
> tape --cycles 2 a=01 b=11 | simulate --cycles 3
== 0
y=110
> tape --cycles 2 a=01 b=11 | simulate --cycles 1
== 0
y=1
> tape --cycles 1 a=1 b=0 | simulate --cycles 2
== 0
y=10
@ toggle
> tape --cycles 4 | simulate --cycles 6
== 0
q=010101
";
