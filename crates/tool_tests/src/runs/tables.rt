// The port tables of patterns.

/// Patterns whose port tables are read, and patterns whose tables are at fault.
pub const CASES: &[u8] = b"
> simulate --cycles 1 -- other comments, and a line after the header
#C BLIFWW
#C BLIFWWW 2
x = 3, y = 1, rule = WireWorld
3C!
#C BLIFWW IN 0 0 a
== 0
> simulate --cycles 2 a=11 -- both line ends, leading zeros, and lines between
\t
#
#C BLIFWW 1 P 4 L 2\r
#

#C BLIFWW IN 002 0 a\r
#C BLIFWW OUT 0 000 y
x = 3, y = 1, rule = WireWorld
3C!
== 0
y=11
> simulate --cycles 2 a=11 -- one name in three kinds of lines, and under two paths
#C BLIFWW 1 P 4 L 2
#C BLIFWW NET 1 0 9 a -
#C BLIFWW OUT 0 0 a
#C BLIFWW IN 2 0 a
#C BLIFWW NET 1 0 18446744073709551615 a 0.12.3
x = 3, y = 1, rule = WireWorld
3C!
== 0
a=11
> probe --cycles 1 --net a a=1
#C BLIFWW 1 P 4 L 2
#C BLIFWW NET 1 0 9 a -
#C BLIFWW OUT 0 0 a
#C BLIFWW IN 2 0 a
#C BLIFWW NET 1 0 18446744073709551615 a 0.12.3
x = 3, y = 1, rule = WireWorld
3C!
== 0
a=0
> probe --cycles 3 --net a a=001
#C BLIFWW 1 P 4 L 2
#C BLIFWW NET 1 0 9 a -
#C BLIFWW OUT 0 0 a
#C BLIFWW IN 2 0 a
#C BLIFWW NET 1 0 18446744073709551615 a 0.12.3
x = 3, y = 1, rule = WireWorld
3C!
== 0
a=100
> probe --cycles 1 --net a --path 0.12.3 a=1
#C BLIFWW 1 P 4 L 2
#C BLIFWW NET 1 0 9 a -
#C BLIFWW OUT 0 0 a
#C BLIFWW IN 2 0 a
#C BLIFWW NET 1 0 18446744073709551615 a 0.12.3
x = 3, y = 1, rule = WireWorld
3C!
== 4
too large: generations 18446744073709551615
> simulate --cycles 2 a=10 -- escapes, which version 1 does not have
#C BLIFWW 2 P 4 L 2 C 1
#C BLIFWW IN 0 0 %61
#C BLIFWW OUT 2 0 a%25
#C BLIFWW NET 1 0 9 %c3%A9%20 0.1
x = 3, y = 1, rule = WireWorld
3C!
== 0
a%=10
> vcd --cycles 1 a=1
#C BLIFWW 2 P 4 L 2 C 1
#C BLIFWW IN 0 0 %61
#C BLIFWW OUT 2 0 a%25
#C BLIFWW NET 1 0 9 %c3%A9%20 0.1
x = 3, y = 1, rule = WireWorld
3C!
== 0
$var wire 1 ! 0.1/%C3%A9%20 $end
$enddefinitions $end
#0
0!
#1
> simulate --cycles 1 %4=0 %61=0 a=0
#C BLIFWW 1 P 4 L 2
#C BLIFWW IN 0 0 %4
#C BLIFWW IN 1 0 %61
#C BLIFWW IN 2 0 a
x = 3, y = 1, rule = WireWorld
3C!
== 0
> simulate --cycles 1 -- contexts
#C BLIFWW 1 P 4 L 2 C 1
x = 3, y = 1, rule = WireWorld
3C!
== 0
> simulate --cycles 1 -- escapes of another form, and a name that stands twice
#C BLIFWW 2 P 4 L 2 C 1
#C BLIFWW IN 0 0 %4
x = 3, y = 1, rule = WireWorld
3C!
== 8
H1 BadLine line 2
> simulate --cycles 1
#C BLIFWW 2 P 4 L 2 C 1
#C BLIFWW NET 0 0 0 %0a -
x = 3, y = 1, rule = WireWorld
3C!
== 8
H1 BadLine line 2
> simulate --cycles 1
#C BLIFWW 2 P 4 L 2 C 1
#C BLIFWW IN 0 0 %61
#C BLIFWW IN 1 0 a
x = 3, y = 1, rule = WireWorld
3C!
== 8
H4 Twice line 3
> simulate --cycles 1 -- contexts
#C BLIFWW 1 P 4 L 2 C 0
x = 3, y = 1, rule = WireWorld
3C!
== 8
H1 BadLine line 1
> simulate --cycles 1
#C BLIFWW 1 P 32 L 2 C 2
x = 3, y = 1, rule = WireWorld
3C!
== 8
H1 BadLine line 1
> simulate --cycles 1
#C BLIFWW 1 P 64 L 2 c 2
x = 3, y = 1, rule = WireWorld
3C!
== 8
H1 BadLine line 1
> simulate --cycles 1 -- faults
#C BLIFWW 1 P 0 L 2
#C BLIFWW IN 0 0 a
x = 3, y = 1, rule = WireWorld
3C!
== 8
H1 BadLine line 1
> simulate --cycles 1
#C BLIFWW 1 P 18446744073709551616 L 2
x = 3, y = 1, rule = WireWorld
3C!
== 8
H1 BadLine line 1
> simulate --cycles 1
#C BLIFWW 2 P 4 L 2
x = 3, y = 1, rule = WireWorld
3C!
== 8
H1 BadLine line 1
> simulate --cycles 1
#C BLIFWW 01 P 4 L 2
x = 3, y = 1, rule = WireWorld
3C!
== 8
H1 BadLine line 1
> simulate --cycles 1
#C BLIFWW 3 P 4 L 2 C 1
x = 3, y = 1, rule = WireWorld
3C!
== 8
H1 BadLine line 1
> simulate --cycles 1
#C BLIFWW 1 P 4 L 2
#C BLIFWW\x20
x = 3, y = 1, rule = WireWorld
3C!
== 8
H1 BadLine line 2
> simulate --cycles 1
#C BLIFWW 1 P 4 L 2
#C BLIFWW IN  0 0 a
x = 3, y = 1, rule = WireWorld
3C!
== 8
H1 BadLine line 2
> simulate --cycles 1
#C BLIFWW 1 P 4 L 2
#C BLIFWW NET 0 0 0 a 1..2
x = 3, y = 1, rule = WireWorld
3C!
== 8
H1 BadLine line 2
> simulate --cycles 1
#C BLIFWW 1 P 4 L 2
#C BLIFWW NET 0 0 0 a 01
x = 3, y = 1, rule = WireWorld
3C!
== 8
H1 BadLine line 2
> simulate --cycles 1
#C BLIFWW IN 0 0 a
#C BLIFWW OUT 2 0 y
x = 3, y = 1, rule = WireWorld
3C!
== 8
H2 BadOrder line 1
> simulate --cycles 1
#C BLIFWW 1 P 4 L 2
#C BLIFWW IN 0 0 a
#C BLIFWW 1 P 4 L 2
x = 3, y = 1, rule = WireWorld
3C!
== 8
H2 BadOrder line 3
> simulate --cycles 1
#C BLIFWW 1 P 4 L 2
#C BLIFWW IN 3 0 a
x = 3, y = 1, rule = WireWorld
3C!
== 8
H3 CellOutside line 2
> simulate --cycles 1
#C BLIFWW 1 P 4 L 2
#C BLIFWW OUT 0 1 y
x = 3, y = 1, rule = WireWorld
3C!
== 8
H3 CellOutside line 2
> simulate --cycles 1
#C BLIFWW 1 P 4 L 2
#C BLIFWW IN 0 0 a
#C BLIFWW IN 0 0 a
x = 3, y = 1, rule = WireWorld
3C!
== 8
H4 Twice line 3
> simulate --cycles 1
#C BLIFWW 1 P 4 L 2
#C BLIFWW NET 0 0 0 a 1
#
#C BLIFWW NET 1 0 7 a 1
x = 3, y = 1, rule = WireWorld
3C!
== 8
H4 Twice line 4
";
