// Runs of `vcd`.

/// Patterns with other port tables than the gate's, and texts and words that give no dump; then the
/// gate's pattern, where the block of cycle 1 begins with the line of the input that changes.
pub const CASES: &[u8] = b"
> vcd --cycles 1 a=1 -- all nets are dumped
#C BLIFWW 1 P 4 L 2
#C BLIFWW IN 0 0 a
#C BLIFWW OUT 2 0 y
x = 3, y = 1, rule = WireWorld
3C!
== 0
$enddefinitions $end
#0
#1
> vcd --cycles 2 a=11 -- without nets no generation but the first is needed
#C BLIFWW 1 P 4294967296 L 2
#C BLIFWW IN 0 0 a
#C BLIFWW OUT 2 0 y
x = 3, y = 1, rule = WireWorld
3C!
== 0
$enddefinitions $end
#0
#1
#2
> vcd --cycles 1 a=1
#C BLIFWW 2 P 4 L 2 C 1
#C BLIFWW IN 0 0 a
#C BLIFWW NET 2 0 2 a$%25%20 1.0
x = 3, y = 1, rule = WireWorld
3C!
== 0
$var wire 1 ! 1.0/a%24%25%20 $end
$enddefinitions $end
#0
1!
#1
> vcd --cycles 2 a=11 -- texts that give no dump
#C BLIFWW 1 P 4294967296 L 0
#C BLIFWW IN 0 0 a
#C BLIFWW NET 2 0 2 y -
x = 3, y = 1, rule = WireWorld
3C!
== 4
too large: generations 4294967298
> vcd --cycles 2 a=11
#C BLIFWW 1 P 1 L 0
#C BLIFWW IN 0 0 a
#C BLIFWW NET 2 0 2 y -
x = 3, y = 1, rule = WireWorld
3C!
== 10
not quiet: generation 1 cell 0 0
> vcd --cycles 1 a=1
#C BLIFWW 1 P 4 L 2
#C BLIFWW IN 0 0 a
x = 3, y = 1, rule = WireWorld
.2C!
== 10
not quiet: generation 0 cell 0 0
> vcd --cycles 1 a=1
x = 3, y = 1, rule = WireWorld
0C!
== 8
G4 BadItem line 2
> vcd --cycles 1 a=1
#C BLIFWW 1 P 4 L 2
#C BLIFWW NET 3 0 0 y -
x = 3, y = 1, rule = WireWorld
3C!
== 8
H3 CellOutside line 2
> vcd --cycles 2 a=01 b=00 -- a gate with nets that change in the second cycle
#C BLIFWW 1 P 32 L 32
#C BLIFWW IN 0 8 a
#C BLIFWW IN 0 24 b
#C BLIFWW OUT 32 8 y
#C BLIFWW NET 0 8 0 a -
#C BLIFWW NET 0 24 0 b -
#C BLIFWW NET 32 8 32 y -
x = 33, y = 32, rule = WireWorld
8$5C18.10C$5.C16.C$6.C14.C$7.C12.C$8.C10.C$9.C.2C5.C$10.2C.C3.C$11.2C.
C.C$15.C$11.2C.C$10.2C.C$9.C.2C$8.C$7.C$6.C$5.C$5C26.C!
== 0
$var wire 1 ! a $end
$var wire 1 \" b $end
$var wire 1 # y $end
$enddefinitions $end
#0
0!
0\"
0#
#1
1!
1#
#2
> vcd --cycles 2 a=11
#C BLIFWW 1 P 4294967296 L 2
#C BLIFWW IN 0 0 a
x = 3, y = 1, rule = WireWorld
3C!
== 0
$enddefinitions $end
#0
#1
#2
> vcd --cycles 4 a=1101 -- nets whose offsets are in any order, one of them longer than a period
#C BLIFWW 1 P 4 L 2
#C BLIFWW IN 0 0 a
#C BLIFWW NET 2 0 2 y -
#C BLIFWW NET 1 0 9 z -
#C BLIFWW NET 0 0 0 a -
x = 3, y = 1, rule = WireWorld
3C!
== 0
$var wire 1 ! y $end
$var wire 1 \" z $end
$var wire 1 # a $end
$enddefinitions $end
#0
1!
0\"
1#
#1
1\"
#2
0!
0\"
0#
#3
1!
1#
#4
> vcd --cycles 2 1:a=01 0:a=10 -- all nets of a context come before those of the next
#C BLIFWW 1 P 64 L 2 C 2
#C BLIFWW IN 0 0 a
#C BLIFWW NET 2 0 2 y -
#C BLIFWW NET 0 0 0 a 1.0
x = 3, y = 1, rule = WireWorld
3C!
== 0
$var wire 1 ! 0:y $end
$var wire 1 \" 0:1.0/a $end
$var wire 1 # 1:y $end
$var wire 1 $ 1:1.0/a $end
$enddefinitions $end
#0
1!
1\"
0#
0$
#1
0!
0\"
1#
1$
#2
> vcd --cycles 1 a=1 -- escapes
#C BLIFWW 2 P 4 L 2 C 1
#C BLIFWW IN 0 0 a
#C BLIFWW NET 2 0 2 %24$%25%20b 0
x = 3, y = 1, rule = WireWorld
3C!
== 0
$var wire 1 ! 0/%24%24%25%20b $end
$enddefinitions $end
#0
1!
#1
> vcd --cycles 2 a=11 -- no conductor where an injection is due: with nets, and without
#C BLIFWW 1 P 1 L 2
#C BLIFWW IN 0 0 a
#C BLIFWW NET 2 0 2 y -
x = 3, y = 1, rule = WireWorld
3C!
== 10
not quiet: generation 1 cell 0 0
> vcd --cycles 2 a=00 b=10
#C BLIFWW 1 P 32 L 2
#C BLIFWW IN 0 0 a
#C BLIFWW IN 0 1 b
x = 3, y = 2, rule = WireWorld
3C!
== 10
not quiet: generation 0 cell 0 1
> vcd --cycles 2 a=00 b=01
#C BLIFWW 1 P 32 L 2
#C BLIFWW IN 0 0 a
#C BLIFWW IN 0 1 b
x = 3, y = 2, rule = WireWorld
3C!
== 0
$enddefinitions $end
#0
#1
#2
> vcd --cycles 2 a=11 -- past the greatest generation
#C BLIFWW 1 P 4294967296 L 2
#C BLIFWW IN 0 0 a
#C BLIFWW NET 0 0 0 a -
#C BLIFWW NET 2 0 2 y -
x = 3, y = 1, rule = WireWorld
3C!
== 4
too large: generations 4294967298
@ gate's pattern
> vcd --cycles 2 a=01 b=00 -- all nets are dumped
== 0
$var wire 1 ! a $end
$var wire 1 \" b $end
$var wire 1 # y $end
$enddefinitions $end
#0
0!
0\"
0#
#1
1!
1#
#2
> vcd --cycles 2 a=01 b=0 -- texts that give no dump
== 9
stream: BadLength b=0
> vcd --cycles 1 a=0
== 9
stream: MissingInput b
";
