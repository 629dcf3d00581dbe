// What `route` and `extract` write and tell, also with sources and sinks that fail.

/// Words that are no command, sources that fail, and what `extract` makes of what `route` wrote.
pub const CASES: &[u8] = b"
> route --net [0 99 99] -- words that are no command: the first call of the source would fail
== 2
usage: wwroute extract|route
> route --nets x & extract x & extract --nets [0 99 99]
== 2
usage: wwroute extract|route
> extract -- an empty text is no pattern
== 8
G1 NoHeader line 1
> extract -- two gates are read
#C gate XOR-E 8 1 7
#C gate OR-E 18 4 17
#C gate LONE-E 1 1 0
#C gate LONE-E 1 7 0
#C gate LONE-E 1 10 0
#C gate LONE-E 26 6 25
#C wire 1 1 E 8 1 -
#C wire 1 7 E 8 7 -
#C wire 12 4 E 18 4 -
#C wire 1 10 E 18 8 -
#C wire 20 6 E 26 6 -
#C BLIFWW 2 P 20 L 25 C 1
#C BLIFWW IN 1 1 a
#C BLIFWW IN 1 7 b
#C BLIFWW IN 1 10 c
#C BLIFWW OUT 26 6 y
x = 27, y = 11, rule = WireWorld
$.8C$9.C$8.4C$8.C2.8C$8.4C7.C$9.C8.9C$.8C10.C$18.C$17.C$.16C!
== 0
.model lifted
.inputs a b c
.outputs y
.names _z
.names a b _g0
10 1
01 1
.names _g0 c _g1
1- 1
-1 1
.names _g1 y
1 1
.end
> route -- two gates are drawn
.model m
.inputs a b c
.outputs y
.names a b t
10 1
01 1
.names t c y
1- 1
-1 1
.end
== 0
#C gate XOR-E 2 0 2
#C gate OR-E 8 2 8
#C gate LONE-E 0 0 0
#C gate LONE-E 0 5 0
#C gate LONE-E 0 8 0
#C gate LONE-E 12 2 12
#C wire 0 0 E 2 0 -
#C wire 0 5 SE 2 6 -
#C wire 0 8 E 8 6 -
#C wire 6 3 NE 8 2 -
#C wire 10 4 NE 12 2 -
#C BLIFWW 2 P 10 L 12 C 1
#C BLIFWW IN 0 0 a
#C BLIFWW IN 0 5 b
#C BLIFWW IN 0 8 c
#C BLIFWW OUT 12 2 y
#C BLIFWW NET 0 0 0 a -
#C BLIFWW NET 0 5 0 b -
#C BLIFWW NET 0 8 0 c -
#C BLIFWW NET 10 4 10 y -
#C BLIFWW NET 6 3 6 t -
x = 13, y = 9, rule = WireWorld
3C$3.C$2.4C.2C3.C$2.C2.2C2.C.C$2.4C2.3C$C2.C5.C$.2C2.4C$4.C$4C!
== err
box 13 x 9, P 10
@ gate
> route [0 999 99] -- the source has four calls for the text, and one more for its end
== 5
read fault
> route --nets [4 999 99]
== 5
read fault
> route [4 999 4]
== 6
read> extract -- a netlist is no pattern
== 8
G1 NoHeader line 1
> route | extract | eval --cycles 4 a=0011 b=0101 & route --nets | probe --net y --cycles 4 a=0011 b=0101
== 0
y=0111
@ heavy
> route -- a heavy netlist is drawn after a notice
== 0
#C gate ...
== err
drawing a netlist of weight 401: this may take some time
box ...
@ gate's pattern
> route -- a pattern is no netlist
== 1
B1 NoModelYet line 8: x
> extract -- the drawing of a plan is no routed circuit
== 12
not a circuit: Wire 11 13
@ adder
> route | simulate --cycles 1 a0=1 a1=1 b0=1 b1=0 ci=0 & route --nets | simulate --cycles 1 a0=1 a1=1 b0=1 b1=0 ci=0
== 0
s0=0
s1=0
c=1
";

/// A netlist of weight 401: 15 inputs, one output, one cover, and 24 rows of weight 16.
pub const HEAVY: &[u8] = b"\
.model m
.inputs a b c d e f g h i j k l m n o
.outputs y
.names a b c d e f g h i j k l m n o y
111111111111111 1
111111111111111 1
111111111111111 1
111111111111111 1
111111111111111 1
111111111111111 1
111111111111111 1
111111111111111 1
111111111111111 1
111111111111111 1
111111111111111 1
111111111111111 1
111111111111111 1
111111111111111 1
111111111111111 1
111111111111111 1
111111111111111 1
111111111111111 1
111111111111111 1
111111111111111 1
111111111111111 1
111111111111111 1
111111111111111 1
111111111111111 1
";
