// What `compile` makes of several contexts, and what such patterns show.

/// Netlists in several contexts: contexts that cannot be, and contexts that each start as their
/// words say. The last cases drive a wire.
pub const CASES: &[u8] = b"
> compile --contexts 2 -- contexts that cannot be
.model or
.inputs a b
.outputs y
.names a b y
1- 1
-1 1
.end
== 4
too large: contexts 2 limit 1
> compile --contexts 2 q=1 -- the words are looked at before the room
.model m
.outputs q
.end
== 1
B14 Undriven line 2: q
> compile --contexts 2 | simulate --cycles 4 0:a=0110 1:a=0011 -- constant 1 holds in each context
.model n
.inputs a
.outputs y
.names a y
0 1
== 0
0:y=1001
1:y=1100
> compile --contexts 13 -- two loops without instructions
.model m
.latch b a 1
.latch a b 0
== 4
too large: contexts 13 limit 12
@ inverter
> compile -- a loop of constant 1 lengthens the period, which is one of whole tiles
== 0
#C BLIFWW 2 P 320 L ...
@ toggle
> compile -- contexts have room for each 32 generations of the period
== 0
#C BLIFWW 2 P 640 L ...
> compile --contexts 20
== 0
#C BLIFWW 2 P ...
> compile --contexts 21
== 4
too large: contexts 21 limit 20
> compile --contexts 2 2:q=1 -- contexts that cannot be
== 9
stream: BadContext 2:q=1
> compile --contexts 2 01:q=1
== 9
stream: BadContext 01:q=1
> compile --contexts 2 1:q
== 9
stream: NoEquals 1:q
> compile --contexts 2 1:n=1
== 9
stream: NoSuchLatch 1:n=1
> compile --contexts 2 1:q=1 1:q=0
== 9
stream: TwiceLatch 1:q=0
> compile --contexts 2 1:q=10
== 9
stream: BadBit 1:q=10
> compile --contexts 4294967295 q=1 -- the words are looked at before the room
== 9
stream: BadContext q=1
> compile --contexts 2 1:q=1 | simulate --cycles 4 -- each context starts as its words say: of the toggle's two one starts with 1
== 0
0:q=0101
1:q=1010
> compile --contexts 2 1:q=1 | probe --cycles 4 --net n
== 0
0:n=1010
1:n=0101
> compile --contexts 2 1:q=1 | vcd --cycles 2 -- their nets are dumped
== 0
$var wire 1 ! 0:q $end
$var wire 1 \" 0:n $end
$var wire 1 # 1:q $end
$var wire 1 $ 1:n $end
$enddefinitions $end
#0
0!
1\"
1#
0$
#1
1!
0\"
0#
1$
#2
@ latches
> compile --contexts 1 | simulate --cycles 1 -- the bits with which two latches start, one of a placed model
== 0
q1=1
> compile --contexts 1 | probe --net q0 --cycles 1
== 0
q0=0
> compile --contexts 3 2:q0=1 0:q1=0 | simulate --cycles 1
== 0
0:q1=0
1:q1=1
2:q1=1
> compile --contexts 3 2:q0=1 0:q1=0 | probe --net q0 --cycles 1
== 0
0:q0=0
1:q0=0
2:q0=1
> compile --contexts 2 1:q0=1 0:q0=1 1:q1=0 | simulate --cycles 1
== 0
0:q1=1
1:q1=0
> compile --contexts 2 1:q0=1 0:q0=1 1:q1=0 | probe --net q0 --cycles 1
== 0
0:q0=1
1:q0=1
> compile --contexts 2 q0
== 9
stream: NoEquals q0
> compile --contexts 2 q0=1
== 9
stream: BadContext q0=1
> compile --contexts 2 2:q0=1
== 9
stream: BadContext 2:q0=1
> compile --contexts 2 01:q0=1
== 9
stream: BadContext 01:q0=1
> compile --contexts 2 1:n=1
== 9
stream: NoSuchLatch 1:n=1
> compile --contexts 2 1:q=1
== 9
stream: NoSuchLatch 1:q=1
> compile --contexts 2 1:q0=1 0:q0=0 1:q0=1
== 9
stream: TwiceLatch 1:q0=1
> compile --contexts 2 1:q0=
== 9
stream: BadBit 1:q0=
> compile --contexts 2 1:q0=10 1:q0
== 9
stream: BadBit 1:q0=10
@ wire
> simulate --cycles 2 1:a=10 0:a=01 -- a wire in two contexts is driven
== 0
0:y=01
1:y=10
> probe --cycles 2 --net m 1:a=10 0:a=01
== 0
0:m=01
1:m=10
> window --gen 33 --x 0 --y 0 --width 3 --height 1 1:a=10 0:a=01
== 0
BAC
> simulate --cycles 2 a=01
== 9
stream: BadContext a=01
> simulate --cycles 2 2:a=01
== 9
stream: BadContext 2:a=01
> simulate --cycles 2 0:a=01 0:a=10
== 9
stream: TwiceInput 0:a=10
> simulate --cycles 2 0:a=01
== 9
stream: MissingInput 1:a
";

/// The pattern of a wire of three cells in two contexts.
pub const WIRE: &[u8] =
    b"#C BLIFWW 1 P 64 L 2 C 2\n#C BLIFWW IN 0 0 a\n#C BLIFWW OUT 2 0 y\n#C BLIFWW NET 1 0 1 m -\nx = 3, y = 1, rule = WireWorld\n3C!\n";

/// The netlist of two latches: q1 of the main model starts with 1, and the one of model `l` with 0.
/// The main model connects its net q0 to the output of `l`, and drives n by a cover.
pub const LATCHES: &[u8] = b"\
.model k
.outputs q1
.subckt l d=n q=q0
.latch m q1 1
.names q0 n
0 1
.names q0 q1 m
10 1
01 1
.end
.model l
.inputs d
.outputs q
.latch d q 0
.end
";
