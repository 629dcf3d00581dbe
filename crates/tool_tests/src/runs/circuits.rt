// Runs of `aiger`.

/// The circuit of a gate whose output is 0 exactly if both inputs are 1.
pub const NAND: &[u8] = b"aag 3 2 0 1 1\n2\n4\n7\n6 2 4\ni0 a\ni1 b\no0 y\n";

/// Circuits, texts that are none, and what the patterns of circuits show.
pub const CASES: &[u8] = b"
> aiger -- a circuit has a pattern
aag 3 2 0 1 1
2
4
6
6 2 4
== 0
#C BLIFWW 2 P 32 L ...
> aiger -- texts that are no circuits
== 1
A1 BadHeader line 1
> aiger
aig 0 0 0 0 0
== 1
A2 Unsupported line 1
> aiger
aag 1 1 0 0 0
== 1
A3 BadLine line 2
> aiger
aag 1 1 0 1 0
2
4
== 1
A4 BadLiteral line 3
> aiger
aag 1 2 0 0 0
2
2
== 1
A5 DefinedTwice line 3
> aiger
aag 2 1 0 1 0
2
4
== 1
A6 Undefined line 3
> aiger
aag 1 0 1 0 0
2 2 5
== 1
A7 BadReset line 2
> aiger
aag 1 1 0 0 0
2
i1 x
== 1
A8 BadSymbol line 3
> aiger
aag 2 2 0 0 0
2
4
i0 a
i1 a
== 1
A9 SameName line 3
> aiger
aag 1 1 0 2 0
2
2
2
o0 y
o1 y
== 1
A9 SameName line 4
> aiger -- a symbol is looked at before what is read and not defined
aag 2 1 0 1 0
2
4
x
== 1
A8 BadSymbol line 4
> aiger
aag 1 0 0 1 1
2
2 2 2
== 3
loop: 2
> aiger
.model m
.outputs y
.names y
.end
== 1
A1 BadHeader line 1
> aiger | simulate --cycles 4 a=0011 b=0101
aag 3 2 0 1 1
2
4
7
6 2 4
i0 a
i1 b
o0 y
== 0
y=1110
> aiger | simulate --cycles 4
aag 1 0 1 1 0
2 3
2
== 0
o0=0101
> aiger | simulate --cycles 4
aag 1 0 1 1 0
2 3 1
2
== 0
o0=1010
> aiger | simulate --cycles 3
aag 0 0 0 1 0
1
== 0
o0=111
> aiger | simulate --cycles 4 i0=0011 i1=0101
aag 3 2 0 1 1
2
4
6
6 2 4
== 0
o0=0001
> aiger -- the period, the ports, the lanes and the columns of plans
aag 3 2 0 1 1
2
4
7
6 2 4
i0 a
i1 b
o0 y
== 0
#C BLIFWW 2 P 512 L 192 C 1
#C BLIFWW IN 32 8 a
#C BLIFWW IN 32 40 b
#C BLIFWW OUT 224 24 y
x = 257, y = 80, rule = WireWorld
...!
> aiger
aag 1 0 1 1 0
2 3
2
== 0
#C BLIFWW 2 P 640 L 192 C 1
#C BLIFWW OUT 256 8 o0
x = 321, y = 96, rule = WireWorld
...!
> aiger
aag 0 0 0 1 0
1
== 0
#C BLIFWW 2 P 256 L 64 C 1
#C BLIFWW OUT 96 8 o0
x = 129, y = 48, rule = WireWorld
...!
> aiger -- no latch, and nothing that needs constant 1
aag 4 2 0 2 2
2
4
6
8
6 2 4
8 3 4
== 0
#C BLIFWW 2 P 32 L 128 C 1
#C BLIFWW IN 0 40 i0
#C BLIFWW IN 0 8 i1
#C BLIFWW OUT 128 8 o0
#C BLIFWW OUT 128 40 o1
x = 129, y = 48, rule = WireWorld
...!
> aiger | simulate --cycles 4 i0=0011 i1=0101
aag 4 2 0 2 2
2
4
6
8
6 2 4
8 3 4
== 0
o0=0001
o1=0100
> aiger -- a latch that starts as 1, and one that starts as its own literal
aag 3 1 2 2 0
2
4 2 1
6 4 6
4
6
== 0
#C BLIFWW 2 P 576 L 160 C 1
#C BLIFWW IN 64 8 i0
#C BLIFWW OUT 224 8 o0
#C BLIFWW OUT 224 24 o1
x = 289, y = 96, rule = WireWorld
...!
> aiger | simulate --cycles 4 i0=0110
aag 3 1 2 2 0
2
4 2 1
6 4 6
4
6
== 0
o0=1011
o1=0101
> aiger -- two outputs that are one input, and an output that is constant 0
aag 1 1 0 3 0
2
2
0
2
== 0
#C BLIFWW 2 P 32 L 64 C 1
#C BLIFWW IN 0 40 i0
#C BLIFWW OUT 64 24 o0
#C BLIFWW OUT 64 8 o1
#C BLIFWW OUT 64 40 o2
x = 65, y = 48, rule = WireWorld
...!
> aiger | simulate --cycles 2 i0=01
aag 1 1 0 3 0
2
2
0
2
== 0
o0=01
o1=00
o2=01
> aiger -- constant 0, and a gate that reaches no output, take no lane
aag 0 0 0 0 0
== 0
#C BLIFWW 2 P 32 L 0 C 1
x = 0, y = 0, rule = WireWorld
...!
> aiger | simulate --cycles 1
aag 0 0 0 0 0
== 0
> aiger
aag 4 2 0 1 2
2
4
6
6 2 4
8 2 6
== 0
#C BLIFWW 2 P 32 L 96 C 1
#C BLIFWW IN 0 8 i0
#C BLIFWW IN 0 40 i1
#C BLIFWW OUT 96 8 o0
x = 97, y = 48, rule = WireWorld
...!
> aiger | simulate --cycles 4 i0=0011 i1=0101
aag 4 2 0 1 2
2
4
6
6 2 4
8 2 6
== 0
o0=0001
> aiger
aag 3 2 0 1 1
2
4
6
6 2 4
== 0
#C BLIFWW 2 P 32 L 96 C 1
#C BLIFWW IN 0 8 i0
#C BLIFWW IN 0 40 i1
#C BLIFWW OUT 96 8 o0
x = 97, y = 48, rule = WireWorld
...!
> aiger | simulate --cycles 3 -- resets: left out, its own literal, and 1; a latch that reads an odd literal
aag 4 0 4 4 0
2 2
4 4 4
6 6 1
8 7 1
2
4
6
8
== 0
o0=000
o1=000
o2=111
o3=100
> aiger | simulate --cycles 7 i0=1100110 i1=1110101 -- the flip-flop with enable and reset of the format's description
aag 7 2 1 2 4
2
4
6 8
6
7
8 4 10
10 13 15
12 2 6
14 3 7
== 0
o0=0100010
o1=1011101
> aiger | simulate --cycles 2 i0=01 -- an input that is an output, a gate of constants, and a gate that nothing reads
aag 4 1 0 4 2
2
3
2
8
0
6 1 2
8 1 1
== 0
o0=10
o1=01
o2=11
o3=00
> aiger | simulate --cycles 3 -- a loop through a latch is allowed
aag 2 0 1 1 1
2 4
2
4 3 1
== 0
o0=010
> aiger | simulate --cycles 1 -- neither inputs nor outputs
aag 0 0 0 0 0
== 0
> aiger
aag 2 1 0 0 1
2
4 0 5
== 3
loop: 4
> aiger
aag 4 1 0 1 3
2
2
4 7 2
6 8 2
8 2 5
== 3
loop: 8 6 4
> aiger
aag 5 1 0 1 4
2
10
4 2 2
6 8 4
8 4 7
10 6 8
== 3
loop: 8 6
> aiger
aag 7 3 0 1 4
2
4
6
15
8 14 2
10 8 2
12 10 2
14 12 2
== 3
loop: 10 12 14 8
> aiger -- an empty text, and headers of another form
== 1
A1 BadHeader line 1
> aiger
aag 1 0 0 1
1
== 1
A1 BadHeader line 1
> aiger
aag 0 0 0 0 0\x20
== 1
A1 BadHeader line 1
> aiger
aag\t0 0 0 0 0
== 1
A1 BadHeader line 1
> aiger
aag 0 0 0 0 18446744073709551616
== 1
A1 BadHeader line 1
> aiger
aag 0 0 0 0 0 0 0
== 1
A2 Unsupported line 1
> aiger -- lines of another form, and missing lines
aag 1 1 0 0 0
2\x20
== 1
A3 BadLine line 2
> aiger
aag 1 1 0 0 0
2\r== 1
A3 BadLine line 2
> aiger
aag 1 0 1 0 0
2 0 0 0
== 1
A3 BadLine line 2
> aiger
aag 1 1 0 1 0
2
c
== 1
A3 BadLine line 3
> aiger
aag 1 1 0 1 0
2
== 1
A3 BadLine line 3
> aiger
aag 1 1 0 18446744073709551615 18446744073709551615
2
== 1
A3 BadLine line 3
> aiger
aag 1 1 0 0 0
3
== 1
A4 BadLiteral line 2
> aiger
aag 1 1 0 0 0
0
== 1
A4 BadLiteral line 2
> aiger
aag 2 0 0 0 1
4 2 6
== 1
A4 BadLiteral line 2
> aiger
aag 1 1 1 0 0
2
2 4 5
== 1
A4 BadLiteral line 3
> aiger
aag 1 1 1 0 0
2
2 0 5
== 1
A5 DefinedTwice line 3
> aiger
aag 1 1 0 0 1
2
2 0 0
== 1
A5 DefinedTwice line 3
> aiger -- an undefined literal comes after the faults A3, A4, A5, A7 and A8 of all lines
aag 2 1 0 1 0
2
5
== 1
A6 Undefined line 3
> aiger
aag 2 0 1 0 1
2 0
4 6 2
== 1
A4 BadLiteral line 3
> aiger
aag 3 0 1 0 1
2 6
4 6 2
== 1
A6 Undefined line 2
> aiger
aag 1 0 1 0 0
2 0 3
== 1
A7 BadReset line 2
> aiger
aag 1 0 1 0 0
2 0 9
== 1
A7 BadReset line 2
> aiger -- symbol lines of another form, without a name, for no input, and for what already has a name
aag 1 1 0 0 0
2

== 1
A8 BadSymbol line 3
> aiger
aag 1 1 0 0 0
2
i0\x20
== 1
A8 BadSymbol line 3
> aiger
aag 1 1 0 0 0
2
i1 a
== 1
A8 BadSymbol line 3
> aiger
aag 1 1 0 0 0
2
i0 a
i00 b
== 1
A8 BadSymbol line 4
> aiger
aag 1 0 1 0 0
2 0
l0 a
l0 b
== 1
A8 BadSymbol line 4
> aiger -- one name twice: a plain name counts as a name, and inputs come before outputs
aag 2 2 0 0 0
2
4
i0 i1
== 1
A9 SameName line 3
> aiger
aag 2 2 0 0 0
2
4
i1 i0
== 1
A9 SameName line 3
> aiger
aag 2 2 0 0 0
2
4
i0 x00
i1 x00
== 1
A9 SameName line 3
> aiger
aag 3 3 0 0 0
2
4
6
i0 a7
i2 a7
== 1
A9 SameName line 4
> aiger
aag 2 1 1 2 0
2
4 0
2
3
o0 y
o1 y
== 1
A9 SameName line 5
> aiger
aag 2 2 0 2 0
2
4
2
3
o0 y
o1 y
i0 a
i1 a
== 1
A9 SameName line 3
> aiger
aag 2 1 0 2 0
2
4
3
o0 o1
== 1
A6 Undefined line 3
> aiger | simulate --cycles 7 enable=1100110 reset=1110101 -- the flip-flop with enable and reset of the format's description
aag 7 2 1 2 4
2
4
6 8
6
7
8 4 10
10 13 15
12 2 6
14 3 7
i0 enable
i1 reset
o0 Q
o1 !Q
c
x== 0
Q=0100010
!Q=1011101
> aiger | simulate --cycles 1 -- resets
aag 4 0 4 0 0
2 0 1
4 0 4
6 0 0
8 0
== 0
> aiger | simulate --cycles 2 i0=01 -- the greatest literal, and the greatest M
aag 1 1 0 1 0
2
3
== 0
o0=10
> aiger | simulate --cycles 2
aag 18446744073709551615 0 0 1 0
1
== 0
o0=11
> aiger | simulate --cycles 1 i0=1 -- a variable that no line defines or reads
aag 9 1 0 0 0
18
== 0
> aiger | simulate --cycles 2 a=01 -- line ends of two bytes, leading zeros, a last line without its end
aag 1 1 0 1 0\r
2\r
3\r
i0 a\r
== 0
o0=10
> aiger | simulate --cycles 1 a=1
aag 01 01 0 00 0
002
i00 a== 0
> aiger -- names with spaces, names of latches, names in any order, and the line at which reading ends
aag 1 1 0 0 0
2
i0  a b\x20
cat
x
== 0
#C BLIFWW 2 P 32 L 32 C 1
#C BLIFWW IN 0 8 %20a%20b%20
x = ...!
> aiger | simulate --cycles 2 y=10
aag 2 1 1 1 0
2
4 2
4
o0 y
l0 y
i0 y
== 0
y=01
> aiger | simulate --cycles 1 a0=1 b0=0 i3=1 -- names that end in one number, and the plain name of an input that the circuit does not have
aag 3 3 0 0 0
2
4
6
i0 a0
i1 b0
i2 i3
== 0
";
