// Runs of `lift`.

/// Circuits that are lifted, and what is lifted from what `aiger`, `compile` and `tape` write; then
/// changes to the gate's pattern and to that of two loops. Nothing is lifted if the pattern is no
/// longer a circuit; else the ports keep their names, and loops are lifted cell by cell.
pub const CASES: &[u8] = b"
> lift
#C BLIFWW 2 P 32 L 0 C 1
x = 0, y = 0, rule = WireWorld
!
== 0
.model lifted
.inputs
.outputs
.names _z
.end
> lift
x = 0, y = 0, rule = WireWorld
!
== 0
.model lifted
.inputs
.outputs
.names _z
.end
> lift -- two gates, one below the other, of whatever hand
#C BLIFWW 2 P 32 L 32 C 1
#C BLIFWW IN 0 8 a
#C BLIFWW IN 0 24 b
#C BLIFWW IN 0 40 c
#C BLIFWW IN 0 56 d
#C BLIFWW OUT 32 8 y
#C BLIFWW OUT 32 40 z
x = 33, y = 64, rule = WireWorld
8$5C18.10C$5.C16.C$6.C14.C$7.C12.C$8.C10.C$9.C.2C5.C$10.2C.C3.C$11.2C.
C.C$15.C$11.2C.C$10.2C.C$9.C.2C$8.C$7.C$6.C$5.C$5C26.C16$5C18.10C$5.C16.C$6.C14.C$7.C12.C$8.C10.C$9.C.2C5.C$10.2C.C3.C$11.2C.
C.C$15.C$11.2C.C$10.2C.C$9.C.2C$8.C$7.C$6.C$5.C$5C26.C!
== 0
.model lifted
.inputs a b c d
.outputs y z
.names _z
.names a b _g0
1- 1
-1 1
.names c d _g1
1- 1
-1 1
.names _g0 y
1 1
.names _g1 z
1 1
.end
> aiger | lift -- names that no netlist can have
aag 1 1 0 1 0
2
2
i0 x
o0 x
== 12
not a circuit: Names
> aiger | lift
aag 1 1 0 1 0
2
2
i0 x y
== 12
not a circuit: Names
> compile | lift | eval --cycles 3 a=010 -- what is lifted prints what the pattern does
.model c
.inputs a
.outputs x y
.names x
1
.latch a y 1
.end
== 0
x=111
y=101
> aiger | lift | eval --cycles 4 a=0011 b=0101
aag 3 2 0 1 1
2
4
7
6 2 4
i0 a
i1 b
o0 y
== 0
y=1110
> compile | lift -- names that begin with `_`, and one with a `\\` inside
.model x
.inputs _z a\\b
.outputs __
.names _z a\\b __
10 1
01 1
== 0
.model lifted
.inputs _z a\\b
.outputs __
.names ___z
.names _z a\\b ___g0
10 1
01 1
.names ___g0 __
1 1
.end
> compile | lift -- an input at two outputs, with names that have `=`, `.` and `\\` in them
.model x
.inputs a=b
.outputs .names y\\1
.names a=b .names
1 1
.names a=b y\\1
1 1
== 0
.model lifted
.inputs a=b
.outputs .names y\\1
.names _z
.names a=b .names
1 1
.names a=b y\\1
1 1
.end
> compile | lift -- two loops that read each other
.model x
.outputs y
.latch b a 1
.latch a b 0
.names a y
1 1
== 0
.model lifted
.inputs
.outputs y
.names _z
.latch _q1 _q0 1
.latch _q0 _q1 0
.names _q0 y
1 1
.end
> compile | lift -- a gate that reads an input and a latch and feeds the latch, and an output that is constant 0
.model x
.inputs in
.outputs zero
.latch g q 1
.names in q g
10 1
.names zero
== 0
.model lifted
.inputs in
.outputs zero
.names _z
.latch _g0 _q0 1
.names in _q0 _g0
10 1
.names _z zero
1 1
.end
> compile | lift -- a latch that starts with 1, and is 1 after a cycle if the input was 1 and the latch 0 in it
.model x
.inputs in
.outputs y
.latch g q 1
.names in q g
10 1
.names q y
1 1
== 0
.model lifted
.inputs in
.outputs y
.names _z
.latch _g0 _q0 1
.names in _q0 _g0
10 1
.names _q0 y
1 1
.end
> lift
#C BLIFWW 1 P 32 L 32
#C BLIFWW IN 0 8 a
#C BLIFWW IN 0 24 b
#C BLIFWW OUT 32 8 y
x = 33, y = 32, rule = WireWorld
8$5C18.10C$5.C16.C$6.C14.C$7.C12.C$8.C10.C$9.C.2C5.C$10.2C.C3.C$11.2C.
C.C$15.C$11.2C.C$10.2C.C$9.C.2C$8.C$7.C$6.C$5.C$5C26.C!
== 0
.model lifted
.inputs a b
.outputs y
.names _z
.names a b _g0
1- 1
-1 1
.names _g0 y
1 1
.end
> lift -- the inputs in another order, and a net at any cell
#C BLIFWW 1 P 32 L 32
#C BLIFWW IN 0 24 b
#C BLIFWW IN 0 8 a
#C BLIFWW OUT 32 8 y
#C BLIFWW NET 3 3 7 n -
x = 33, y = 32, rule = WireWorld
8$5C18.10C$5.C16.C$6.C14.C$7.C12.C$8.C10.C$9.C.2C5.C$10.2C.C3.C$11.2C.
C.C$15.C$11.2C.C$10.2C.C$9.C.2C$8.C$7.C$6.C$5.C$5C26.C!
== 0
.model lifted
.inputs b a
.outputs y
.names _z
.names a b _g0
1- 1
-1 1
.names _g0 y
1 1
.end
> lift
#C BLIFWW 1 P 32 L 32
#C BLIFWW IN 0 8 a
#C BLIFWW IN 0 24 b
#C BLIFWW OUT 32 8 y
x = 33, y = 32, rule = WireWorld
8$5C18.10C$5.C16.C$6.C14.C$7.C12.C$8.C10.C$9.C.2C5.C$10.2C.C3.C$11.2C.
C.C$15.C$11.2C.C$10.2C.C$9.C.2C$8.C$7.C$6.C$5.C$5C!
== 12
not a circuit: Cells
> lift -- a port that is wrong is told before the output that is missing
#C BLIFWW 1 P 64 L 32
x = 33, y = 32, rule = WireWorld
8$5C18.10C$5.C16.C$6.C14.C$7.C12.C$8.C10.C$9.C.2C5.C$10.2C.C3.C$11.2C.
C.C$15.C$11.2C.C$10.2C.C$9.C.2C$8.C$7.C$6.C$5.C$5C26.C!
== 12
not a circuit: Ports
> lift
#C BLIFWW 1 P 64 L 32 C 2
x = 33, y = 32, rule = WireWorld
8$5C18.10C$5.C16.C$6.C14.C$7.C12.C$8.C10.C$9.C.2C5.C$10.2C.C3.C$11.2C.
C.C$15.C$11.2C.C$10.2C.C$9.C.2C$8.C$7.C$6.C$5.C$5C26.C!
== 12
not a circuit: Ports
> lift
#C BLIFWW 1 P 32 L 32
#C BLIFWW IN 0 9 a
x = 33, y = 32, rule = WireWorld
8$5C18.10C$5.C16.C$6.C14.C$7.C12.C$8.C10.C$9.C.2C5.C$10.2C.C3.C$11.2C.
C.C$15.C$11.2C.C$10.2C.C$9.C.2C$8.C$7.C$6.C$5.C$5C26.C!
== 12
not a circuit: Ports
> lift
x = 5, y = 0, rule = WireWorld
!
== 12
not a circuit: Ports
> lift -- names that end with a backslash, have a byte 11, or stand twice
#C BLIFWW 1 P 32 L 32
#C BLIFWW IN 0 8 a\\
#C BLIFWW OUT 32 8 y
x = 33, y = 32, rule = WireWorld
8$5C18.10C$5.C16.C$6.C14.C$7.C12.C$8.C10.C$9.C.2C5.C$10.2C.C3.C$11.2C.
C.C$15.C$11.2C.C$10.2C.C$9.C.2C$8.C$7.C$6.C$5.C$5C26.C!
== 12
not a circuit: Names
> lift
#C BLIFWW 2 P 32 L 32 C 1
#C BLIFWW IN 0 8 a%0Bc
#C BLIFWW OUT 32 8 y
x = 33, y = 32, rule = WireWorld
8$5C18.10C$5.C16.C$6.C14.C$7.C12.C$8.C10.C$9.C.2C5.C$10.2C.C3.C$11.2C.
C.C$15.C$11.2C.C$10.2C.C$9.C.2C$8.C$7.C$6.C$5.C$5C26.C!
== 12
not a circuit: Names
> lift
#C BLIFWW 1 P 32 L 32
#C BLIFWW IN 0 8 y
#C BLIFWW OUT 32 8 y
x = 33, y = 32, rule = WireWorld
8$5C18.10C$5.C16.C$6.C14.C$7.C12.C$8.C10.C$9.C.2C5.C$10.2C.C3.C$11.2C.
C.C$15.C$11.2C.C$10.2C.C$9.C.2C$8.C$7.C$6.C$5.C$5C26.C!
== 12
not a circuit: Names
@ gate
> compile | lift
== 0
.model lifted
.inputs a b
.outputs y
.names _z
.names a b _g0
1- 1
-1 1
.names _g0 y
1 1
.end
> tape --cycles 1 a=0 b=0 | lift -- what the commands write is lifted in one context
== 0
.model lifted
...
> tape --cycles 1 a=1 b=0 | lift
== 12
not a circuit: Cells
> tape --cycles 2 a=00 b=00 | lift
== 12
not a circuit: Ports
> compile | lift | eval --cycles 4 a=0011 b=0101 -- what is lifted prints what the pattern does
== 0
y=0111
@ toggle
> compile --contexts 2 | lift -- what the commands write is lifted in one context
== 12
not a circuit: Ports
> compile | lift | eval --cycles 4 -- what is lifted prints what the pattern does
== 0
q=0101
> compile --contexts 1 0:q=1 | lift | eval --cycles 4
== 0
q=1010
@ gate's lines: lift
> #C BLIFWW 2 P 32 L 32 C 1
#C BLIFWW 2 P 32 L 33 C 1
== 12
not a circuit: Ports
> #C BLIFWW 2 P 32 L 32 C 1
#C BLIFWW 2 P 32 L 0 C 1
== 12
not a circuit: Ports
> #C BLIFWW 2 P 32 L 32 C 1
#C BLIFWW 2 P 32 L 64 C 1
== 12
not a circuit: Ports
> #C BLIFWW 2 P 32 L 32 C 1
#C BLIFWW 2 P 64 L 32 C 1
== 12
not a circuit: Ports
> #C BLIFWW 2 P 32 L 32 C 1
#C BLIFWW 2 P 64 L 32 C 2
== 12
not a circuit: Ports
> #C BLIFWW 2 P 32 L 32 C 1
#C BLIFWW 2 P 32 L 32 C 2
== 8
H1 BadLine line 1
> #C BLIFWW IN 0 8 a
#C BLIFWW IN 0 9 a
== 12
not a circuit: Ports
> #C BLIFWW IN 0 8 a
#C BLIFWW IN 1 8 a
== 12
not a circuit: Ports
> #C BLIFWW IN 0 8 a
#C BLIFWW IN 0 24 a
== 12
not a circuit: Ports
> #C BLIFWW IN 0 8 a
#C BLIFWW IN 32 8 a
== 12
not a circuit: Ports
> #C BLIFWW IN 0 8 a
#C BLIFWW IN 0 33 a
== 8
H3 CellOutside line 2
> #C BLIFWW IN 0 8 a
#C BLIFWW IN 0 8 y
== 12
not a circuit: Names
> #C BLIFWW IN 0 8 a
#C BLIFWW IN 0 8 a%20b
== 12
not a circuit: Names
> #C BLIFWW IN 0 8 a
#C BLIFWW IN 0 8 %09
== 12
not a circuit: Names
> #C BLIFWW IN 0 8 a
#C BLIFWW IN 0 8 a%0D
== 12
not a circuit: Names
> #C BLIFWW IN 0 8 a
#C BLIFWW IN 0 8 a#b
== 12
not a circuit: Names
> #C BLIFWW IN 0 8 a
#C BLIFWW IN 0 8 a\\
== 12
not a circuit: Names
> #C BLIFWW IN 0 24 b
#C BLIFWW IN 0 24 a
== 8
H4 Twice line 3
> #C BLIFWW OUT 32 8 y
#C BLIFWW OUT 32 8 b
== 12
not a circuit: Names
> #C BLIFWW OUT 32 8 y
#C BLIFWW OUT 32 8 \\
== 12
not a circuit: Names
> #C BLIFWW OUT 32 8 y
#C BLIFWW OUT 31 8 y
== 12
not a circuit: Ports
> #C BLIFWW OUT 32 8 y
#C BLIFWW OUT 0 8 y
== 12
not a circuit: Ports
> #C BLIFWW OUT 32 8 y
#C BLIFWW OUT 32 24 y
== 12
not a circuit: Cells
> #C BLIFWW OUT 32 8 y

== 12
not a circuit: Cells
> #C BLIFWW OUT 32 8 y
#C BLIFWW NET 31 8 31 y -
== 12
not a circuit: Cells
> x = 33, y = 32, rule = WireWorld
x = 34, y = 32, rule = WireWorld
== 12
not a circuit: Ports
> x = 33, y = 32, rule = WireWorld
x = 33, y = 33, rule = WireWorld
== 12
not a circuit: Ports
> x = 33, y = 32, rule = WireWorld
x = 33, y = 48, rule = WireWorld
== 12
not a circuit: Cells
> x = 33, y = 32, rule = WireWorld
x = 33, y = 32, rule = Life
== 8
G3 OtherRule line 5
> x = 33, y = 32, rule = WireWorld
x = 33554432, y = 9, rule = WireWorld
== 4
too large: grid 33554432 by 9
> 8$
7$
== 12
not a circuit: Cells
> 8$
9$
== 12
not a circuit: Cells
> 8$
C8$
== 12
not a circuit: Cells
> 5C18.10C$
A4C18.10C$
== 12
not a circuit: Cells
> 5C18.10C$
4C19.10C$
== 12
not a circuit: Cells
> 5C18.10C$
5C18.9C$
== 12
not a circuit: Cells
> 5C18.10C$
5C18.9CA$
== 12
not a circuit: Cells
> 6.C14.C$
6.C14.B$
== 12
not a circuit: Cells
> 7.C12.C$
7.C$
== 12
not a circuit: Cells
> 9.C.2C5.C$
9.C.2CA4.C$
== 12
not a circuit: Cells
> 15.C$
14.2C$
== 12
not a circuit: Cells
> 15.C$
$
== 12
not a circuit: Cells
> 8.C$
8.2C$
== 12
not a circuit: Cells
> 5C26.C!
5C!
== 12
not a circuit: Cells
> 5C26.C!
5C26.A!
== 12
not a circuit: Cells
> 5C26.C!
5C26.C
== 8
G6 NoEnd line 23
> #C BLIFWW IN 0 8 a
#C BLIFWW IN 0 8 a\\b
== 0
.model lifted
.inputs a\\b b
.outputs y
.names _z
.names a\\b b _g0
1- 1
-1 1
.names _g0 y
1 1
.end
> #C BLIFWW IN 0 24 b
#C BLIFWW IN 0 24 __q=1
== 0
.model lifted
.inputs a __q=1
.outputs y
.names ___z
.names a __q=1 ___g0
1- 1
-1 1
.names ___g0 y
1 1
.end
> #C BLIFWW IN 0 24 b

== 0
.model lifted
.inputs a
.outputs y
.names _z
.names a _z _g0
1- 1
-1 1
.names _g0 y
1 1
.end
> #C BLIFWW OUT 32 8 y
#C BLIFWW OUT 32 8 .y
#C BLIFWW NET 5 5 5 a -
== 0
.model lifted
.inputs a b
.outputs .y
.names _z
.names a b _g0
1- 1
-1 1
.names _g0 .y
1 1
.end
@ ring's lines: lift
> #C BLIFWW 2 P 384 L 64 C 1
#C BLIFWW 2 P 32 L 64 C 1
== 12
not a circuit: Ports
> #C BLIFWW 2 P 384 L 64 C 1
#C BLIFWW 2 P 256 L 64 C 1
== 12
not a circuit: Ports
> #C BLIFWW OUT 128 8 q
#C BLIFWW OUT 128 24 q
== 12
not a circuit: Ports
> #C BLIFWW OUT 128 8 q
#C BLIFWW OUT 192 8 q
== 12
not a circuit: Ports
> x = 193, y = 80, rule = WireWorld
x = 193, y = 96, rule = WireWorld
== 12
not a circuit: Cells
> x = 193, y = 80, rule = WireWorld
x = 193, y = 81, rule = WireWorld
== 12
not a circuit: Ports
> $10.53CBAC23.8C16.70C
$10.56C23.8C16.70C
== 0
.model lifted
.inputs
.outputs q
.names _z
.latch _q1 _q0 0
.latch _q0 _q1 0
.names _q0 q
1 1
.end
> $10.53CBAC23.8C16.70C
$10.54CAC23.8C16.70C
== 12
not a circuit: Cells
> $10.53CBAC23.8C16.70C
$10.53CB2C23.8C16.70C
== 12
not a circuit: Cells
> $10.53CBAC23.8C16.70C
$10.40CBA11CBAC23.8C16.70C
== 12
not a circuit: Cells
> $16.C25.109C25.C
$16.C25.21CBA86C25.C
== 0
.model lifted
.inputs
.outputs q
.names _z
.latch _q1 _q0 1
.latch _q0 _q1 1
.names _q0 q
1 1
.end
> $16.C25.109C25.C
$16.C25.108C26.C
== 12
not a circuit: Cells
> $16.C31.C96.C30.C
$16.C31.C96.C
== 12
not a circuit: Cells
> $16.C25.61C23.25C25.C
$16.C25.30CA30C23.25C25.C
== 12
not a circuit: Cells
> $16.C96.3C60.C
$16.C96.2C61.C
== 12
not a circuit: Cells
> $10.93C23.57C
$10.92C24.57C
== 12
not a circuit: Cells
";

// The gate's pattern without its nets, with each row of the drawing on a line of its own.
pub const GATE_LINES: &[u8] = b"\
#C BLIFWW 2 P 32 L 32 C 1
#C BLIFWW IN 0 8 a
#C BLIFWW IN 0 24 b
#C BLIFWW OUT 32 8 y
x = 33, y = 32, rule = WireWorld
8$
5C18.10C$
5.C16.C$
6.C14.C$
7.C12.C$
8.C10.C$
9.C.2C5.C$
10.2C.C3.C$
11.2C.C.C$
15.C$
11.2C.C$
10.2C.C$
9.C.2C$
8.C$
7.C$
6.C$
5.C$
5C26.C!
";

// The pattern of two loops that feed each other. The first starts with 1.
pub const RING_LINES: &[u8] = b"\
#C BLIFWW 2 P 384 L 64 C 1
#C BLIFWW OUT 128 8 q
x = 193, y = 80, rule = WireWorld
5$85.2C$67.19C.C11.C$66.C18.2C.2C8.C.C$64.2C23.9C3.28C$66.C18.2C.2C8.C
$67.C16.2C.C11.C$68.C14.C.2C13.C$69.C12.C18.C$70.C.2C7.C20.C
$71.2C.C5.C22.C$72.2C.2C2.C24.C$76.3C26.C$72.2C.2C2.C26.C
$71.2C.C5.C26.C$70.C.2C7.C26.C$69.C12.C26.C$68.C14.C.2C23.C
$67.C16.2C.C23.C$66.C18.2C.2C22.C
$10.53CBAC23.8C16.70C
$9.C56.C18.2C.2C93.C$10.4C53.19C.C92.3C$14.C70.2C92.C$15.C162.C
$16.C160.C$16.C159.C$16.C159.C$16.C159.C$16.C159.C$17.9C151.9C
$26.C159.C$17.9C151.9C$16.C159.C$16.C159.C$16.C159.C
$16.C25.109C25.C
$16.C24.C109.C24.C$16.C25.4C102.3C25.C$16.C29.C100.C28.C
$16.C30.C98.C29.C
$16.C31.C96.C30.C
$16.C31.C95.C31.C$16.C31.C95.C31.C$16.C31.C95.C31.C$16.C31.C95.C31.C
$17.9C22.C96.C31.9C$26.C20.C98.C39.C$17.9C20.C100.C29.9C
$16.C28.C59.2C41.C27.C$16.C25.3C59.C.19C24.2C25.C
$16.C24.C60.2C.2C18.C25.C24.C
$16.C25.61C23.25C25.C
$16.C85.2C.2C18.C50.C$16.C87.C.2C16.C51.C$16.C88.2C.C14.C52.C
$16.C92.C12.C53.C$16.C93.C7.2C.C54.C$16.C94.C5.C.2C55.C
$16.C95.C2.2C.2C56.C
$16.C96.3C60.C
$16.C95.C2.2C.2C56.C$16.C94.C5.C.2C56.C$15.C94.C7.2C.C56.C
$14.C94.C12.C56.C$13.C91.2C.C14.C56.C$10.3C91.C.2C16.C56.2C
$9.C92.2C.2C18.C57.C
$10.93C23.57C
$102.2C.2C18.C$104.C.19C$105.2C!
";
