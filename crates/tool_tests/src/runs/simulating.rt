// Runs of `simulate`, `probe` and `window`.

/// Patterns that run, and texts and words that give no run. Then come a latch, and changes to its
/// pattern: it starts with 0, its electron is late, its loop is cut, it has lines of nets, whatever
/// these say, and it has names that no netlist can have.
pub const CASES: &[u8] = b"
> simulate --cycles 2 a=11 -- a wire shows what its period lets through
#C BLIFWW 1 P 4 L 2
#C BLIFWW IN 0 0 a
#C BLIFWW OUT 2 0 y
x = 3, y = 1, rule = WireWorld
3C!
== 0
y=11
> simulate --cycles 2 a=11
#C BLIFWW 1 P 3 L 2
#C BLIFWW IN 0 0 a
#C BLIFWW OUT 2 0 y
x = 3, y = 1, rule = WireWorld
3C!
== 0
y=11
> simulate --cycles 2 a=11
#C BLIFWW 1 P 2 L 2
#C BLIFWW IN 0 0 a
#C BLIFWW OUT 2 0 y
x = 3, y = 1, rule = WireWorld
3C!
== 0
y=10
> simulate --cycles 1
#CXRLE Pos=0,0
x = 3, y = 1, rule = wireworld
3C$!== 0
> simulate --cycles 2 a=11 -- names with escapes are driven and printed as they are meant
#C BLIFWW 2 P 4 L 2 C 1
#C BLIFWW IN 0 0 %61
#C BLIFWW OUT 2 0 %25%c3%A9
x = 3, y = 1, rule = WireWorld
3C!
== 0
%\xc3\xa9=11
> simulate --cycles 1 -- a box without cells shows nothing
x = 18446744073709551615, y = 0, rule = WireWorld
!== 0
> simulate --cycles 1
x = 0, y = 18446744073709551615, rule = WireWorld
!== 0
> simulate --cycles 2 a=11 -- texts that give no simulation
#C BLIFWW 1 P 4294967296 L 2
#C BLIFWW IN 0 0 a
#C BLIFWW OUT 2 0 y
x = 3, y = 1, rule = WireWorld
3C!
== 4
too large: generations 4294967298
> simulate --cycles 2 a=11
#C BLIFWW 1 P 0 L 2
#C BLIFWW IN 0 0 a
#C BLIFWW OUT 2 0 y
x = 3, y = 1, rule = WireWorld
3C!
== 8
H1 BadLine line 1
> simulate --cycles 2 a=11
#C BLIFWW IN 0 0 a
#C BLIFWW OUT 2 0 y
x = 3, y = 1, rule = WireWorld
3C!
== 8
H2 BadOrder line 1
> simulate --cycles 2 a=11
#C BLIFWW 1 P 4 L 2
#C BLIFWW IN 3 0 a
#C BLIFWW OUT 2 0 y
x = 3, y = 1, rule = WireWorld
3C!
== 8
H3 CellOutside line 2
> simulate --cycles 2 a=11
#C BLIFWW 1 P 4 L 2
#C BLIFWW IN 0 0 a
#C BLIFWW IN 0 0 a
#C BLIFWW OUT 2 0 y
x = 3, y = 1, rule = WireWorld
3C!
== 8
H4 Twice line 3
> simulate --cycles 2 a=11
#C BLIFWW 2 P 4 L 2 C 1
#C BLIFWW IN 0 0 %4
#C BLIFWW OUT 2 0 y
x = 3, y = 1, rule = WireWorld
3C!
== 8
H1 BadLine line 2
> simulate --cycles 2 a=11
#C BLIFWW 1 P 1 L 2
#C BLIFWW IN 0 0 a
#C BLIFWW OUT 2 0 y
x = 3, y = 1, rule = WireWorld
3C!
== 10
not quiet: generation 1 cell 0 0
> simulate --cycles 1
#CXRLE Pos=0,0
x = 3, y = 1, rule = wireworld
0C!== 8
G4 BadItem line 3
> simulate --cycles 1
#CXRLE Pos=0,0
x = 3, y = 1, rule = wireworld
3C$== 8
G6 NoEnd line 3
> simulate --cycles 1
#C BLIFWW
x = 65536, y = 4097, rule = WireWorld
0C== 4
too large: grid 65536 by 4097
> window --gen 1 --x 0 --y 0 --width 3 --height 2 -- a net and a part of the plane are shown
x = 3, y = 2, rule = WireWorld
3A$.C!
== 0
BBB
.C.
> window --gen 1 --x 0 --y 0 --width 3 --height 2
x = 3, y = 2, rule = WireWorld
2A$.C!
== 0
BB.
.A.
> window --gen 1 --x 3 --y 9 --width 2 --height 1
x = 3, y = 2, rule = WireWorld
3A$.C!
== 0
..
> probe --cycles 2 --net y a=11
#C BLIFWW 1 P 4294967296 L 2
#C BLIFWW IN 0 0 a
#C BLIFWW NET 2 0 2 y -
x = 3, y = 1, rule = WireWorld
3C!
== 4
too large: generations 4294967298
> simulate --cycles 2 a=11
#C BLIFWW 1 P 4 L 2
#C BLIFWW IN 0 0 a
#C BLIFWW OUT 0 2 y
x = 1, y = 3, rule = WireWorld
C$C$C!
== 0
y=11
> simulate --cycles 2 a=11
#C BLIFWW 1 P 3 L 2
#C BLIFWW IN 0 0 a
#C BLIFWW OUT 0 2 y
x = 1, y = 3, rule = WireWorld
C$C$C!
== 0
y=11
> simulate --cycles 2 a=11
#C BLIFWW 1 P 2 L 2
#C BLIFWW IN 0 0 a
#C BLIFWW OUT 0 2 y
x = 1, y = 3, rule = WireWorld
C$C$C!
== 0
y=10
> simulate --cycles 2 a=11
#C BLIFWW 1 P 1 L 1
#C BLIFWW IN 0 1 a
#C BLIFWW OUT 0 2 y
x = 1, y = 3, rule = WireWorld
C$C$C!
== 10
not quiet: generation 1 cell 0 1
> simulate --cycles 2 a=01 -- an empty cell, a cell that another input lights, and no output
#C BLIFWW 1 P 32 L 32
#C BLIFWW IN 9 8 a
#C BLIFWW OUT 32 8 y
x = 33, y = 32, rule = WireWorld
8$5C18.10C$5.C16.C$6.C14.C$7.C12.C$8.C10.C$9.C.2C5.C$10.2C.C3.C$11.2C.
C.C$15.C$11.2C.C$10.2C.C$9.C.2C$8.C$7.C$6.C$5.C$5C26.C!
== 10
not quiet: generation 32 cell 9 8
> simulate --cycles 2 a=10 b=10
#C BLIFWW 1 P 4 L 2
#C BLIFWW IN 0 0 a
#C BLIFWW IN 1 0 b
#C BLIFWW OUT 2 0 y
x = 3, y = 1, rule = WireWorld
3C!
== 0
y=00
> simulate --cycles 2 a=11
#C BLIFWW 1 P 1 L 0
#C BLIFWW IN 0 0 a
x = 3, y = 1, rule = WireWorld
3C!
== 10
not quiet: generation 1 cell 0 0
> simulate --cycles 2 1:a=01 0:a=10 -- two contexts on one wire, on a gate, and with an empty cell
#C BLIFWW 1 P 64 L 2 C 2
#C BLIFWW IN 0 0 a
#C BLIFWW OUT 2 0 y
#C BLIFWW OUT 0 0 z
x = 3, y = 1, rule = WireWorld
3C!
== 0
0:y=10
0:z=00
1:y=01
1:z=00
> simulate --cycles 3 0:a=100 0:b=010 1:a=001 1:b=001
#C BLIFWW 1 P 64 L 32 C 2
#C BLIFWW IN 0 8 a
#C BLIFWW IN 0 24 b
#C BLIFWW OUT 32 8 y
x = 33, y = 32, rule = WireWorld
8$5C18.10C$5.C16.C$6.C14.C$7.C12.C$8.C10.C$9.C.2C5.C$10.2C.C3.C$11.2C.
C.C$15.C$11.2C.C$10.2C.C$9.C.2C$8.C$7.C$6.C$5.C$5C26.C!
== 0
0:y=110
1:y=001
> simulate --cycles 2 0:a=11 0:b=01 1:a=11 1:b=11
#C BLIFWW 1 P 64 L 32 C 2
#C BLIFWW IN 0 8 a
#C BLIFWW IN 9 8 b
#C BLIFWW OUT 32 8 y
x = 33, y = 32, rule = WireWorld
8$5C18.10C$5.C16.C$6.C14.C$7.C12.C$8.C10.C$9.C.2C5.C$10.2C.C3.C$11.2C.
C.C$15.C$11.2C.C$10.2C.C$9.C.2C$8.C$7.C$6.C$5.C$5C26.C!
== 10
not quiet: generation 32 cell 9 8
> simulate --cycles 2 a=10 -- the second bit is dark, or nothing is seen
#C BLIFWW 1 P 4294967294 L 2
#C BLIFWW IN 0 0 a
#C BLIFWW OUT 2 0 y
x = 3, y = 1, rule = WireWorld
3C!
== 0
y=10
> simulate --cycles 2 a=10
#C BLIFWW 1 P 4294967294 L 2
#C BLIFWW IN 0 0 a
x = 3, y = 1, rule = WireWorld
3C!
== 0
> simulate --cycles 2 a=10 -- an electron circles long after the last injection, or is missed
#C BLIFWW 1 P 4294967294 L 2
#C BLIFWW IN 1 2 a
x = 4, y = 3, rule = WireWorld
.BA$C2.C$.2C!
== 0
> simulate --cycles 2 a=10 b=01
#C BLIFWW 1 P 64 L 2
#C BLIFWW IN 1 2 a
#C BLIFWW IN 1 1 b
x = 4, y = 3, rule = WireWorld
.BA$C2.C$.2C!
== 10
not quiet: generation 64 cell 1 1
> simulate --cycles 4 b=0101 a=0011 -- a gate, and one head and each generation up to 32
#C BLIFWW 1 P 32 L 32
#C BLIFWW IN 0 8 a
#C BLIFWW IN 0 24 b
#C BLIFWW OUT 32 8 y
x = 33, y = 32, rule = WireWorld
8$5C18.10C$5.C16.C$6.C14.C$7.C12.C$8.C10.C$9.C.2C5.C$10.2C.C3.C$11.2C.
C.C$15.C$11.2C.C$10.2C.C$9.C.2C$8.C$7.C$6.C$5.C$5C26.C!
== 0
y=0111
> simulate --cycles 33 a=100000000000000000000000000000000 b=000000000000000000000000000000000
#C BLIFWW 1 P 1 L 0
#C BLIFWW IN 0 8 a
#C BLIFWW IN 0 24 b
#C BLIFWW OUT 32 8 y
x = 33, y = 32, rule = WireWorld
8$5C18.10C$5.C16.C$6.C14.C$7.C12.C$8.C10.C$9.C.2C5.C$10.2C.C3.C$11.2C.
C.C$15.C$11.2C.C$10.2C.C$9.C.2C$8.C$7.C$6.C$5.C$5C26.C!
== 0
y=000000000000000000000000000000001
> simulate --cycles 2 0:a=10 1:a=00
#C BLIFWW 1 P 4294967264 L 1 C 2
#C BLIFWW IN 0 0 a
#C BLIFWW OUT 2 0 y
x = 3, y = 1, rule = WireWorld
3C!
== 4
too large: generations 4294967297
> simulate --cycles 2 a=b=10 -- a name with an equals sign
#C BLIFWW 1 P 4 L 2
#C BLIFWW IN 0 0 a=b
#C BLIFWW OUT 2 0 y
x = 3, y = 1, rule = WireWorld
3C!
== 0
y=10
> simulate --cycles 2 a=01 b=0 -- first faults
#C BLIFWW 1 P 4 L 2
#C BLIFWW IN 0 0 a
#C BLIFWW IN 1 0 b
#C BLIFWW OUT 2 0 y
x = 3, y = 1, rule = WireWorld
3C!
== 9
stream: BadLength b=0
> simulate --cycles 2 a=01
#C BLIFWW 1 P 4 L 2
#C BLIFWW IN 0 0 a
#C BLIFWW IN 1 0 b
#C BLIFWW OUT 2 0 y
x = 3, y = 1, rule = WireWorld
3C!
== 9
stream: MissingInput b
> simulate --cycles 2 a=01 a=01 b=01
#C BLIFWW 1 P 4 L 2
#C BLIFWW IN 0 0 a
#C BLIFWW IN 1 0 b
#C BLIFWW OUT 2 0 y
x = 3, y = 1, rule = WireWorld
3C!
== 9
stream: TwiceInput a=01
> simulate --cycles 2 a01 b=0
#C BLIFWW 1 P 4 L 2
#C BLIFWW IN 0 0 a
#C BLIFWW IN 1 0 b
#C BLIFWW OUT 2 0 y
x = 3, y = 1, rule = WireWorld
3C!
== 9
stream: NoEquals a01
> simulate --cycles 2 c=2 b
#C BLIFWW 1 P 4 L 2
#C BLIFWW IN 0 0 a
#C BLIFWW IN 1 0 b
#C BLIFWW OUT 2 0 y
x = 3, y = 1, rule = WireWorld
3C!
== 9
stream: UnknownInput c=2
> simulate --cycles 2 a=012 b=01
#C BLIFWW 1 P 4 L 2
#C BLIFWW IN 0 0 a
#C BLIFWW IN 1 0 b
#C BLIFWW OUT 2 0 y
x = 3, y = 1, rule = WireWorld
3C!
== 9
stream: BadBit a=012
> simulate --cycles 2 a=01 a=2
#C BLIFWW 1 P 4 L 2
#C BLIFWW IN 0 0 a
#C BLIFWW IN 1 0 b
#C BLIFWW OUT 2 0 y
x = 3, y = 1, rule = WireWorld
3C!
== 9
stream: TwiceInput a=2
> simulate --cycles 2 a=0 a=01
#C BLIFWW 1 P 4 L 2
#C BLIFWW IN 0 0 a
#C BLIFWW IN 1 0 b
#C BLIFWW OUT 2 0 y
x = 3, y = 1, rule = WireWorld
3C!
== 9
stream: BadLength a=0
> simulate --cycles 2
#C BLIFWW 1 P 4 L 2
#C BLIFWW IN 0 0 a
#C BLIFWW IN 1 0 b
#C BLIFWW OUT 2 0 y
x = 3, y = 1, rule = WireWorld
3C!
== 9
stream: MissingInput a
> simulate --cycles 2 a=01
#C BLIFWW 1 P 64 L 2 C 2
#C BLIFWW IN 0 0 a
x = 3, y = 1, rule = WireWorld
3C!
== 9
stream: BadContext a=01
> simulate --cycles 2 0:a=01
#C BLIFWW 1 P 64 L 2 C 2
#C BLIFWW IN 0 0 a
x = 3, y = 1, rule = WireWorld
3C!
== 9
stream: MissingInput 1:a
@ gate's pattern
> simulate --cycles 2 a=01 b=0 -- words that give no streams
== 9
stream: BadLength b=0
> simulate --cycles 2 a=01
== 9
stream: MissingInput b
> simulate --cycles 2 a=01 a=01 b=01
== 9
stream: TwiceInput a=01
> simulate --cycles 3 a=011 b=012
== 9
stream: BadBit b=012
> probe --cycles 2 --net y a=01 b=00 -- a net and a part of the plane are shown
== 0
y=01
> probe --cycles 1 --net z a=0 b=0
== 9
stream: NoSuchNet z
@ latch
> simulate --cycles 6 d=001011 -- a latch that starts with 1: its output shows the input of the cycle before
== 0
q=100101
@ latch: simulate --cycles 6 d=001011
> 10.21CBAC23.30C$
10.24C23.30C$
== 0
q=000101
> 10.21CBAC23.30C$
10.20CBA2C23.30C$
== 0
q=000101
> 10.3C72.2C$
10.3C72.C$
== 0
q=100000
> #C BLIFWW OUT 64 8 q
#C BLIFWW OUT 64 8 q
#C BLIFWW NET 32 8 0 d -
#C BLIFWW NET 0 0 7 q -
== 0
q=100101
> #C BLIFWW OUT 64 8 q
#C BLIFWW OUT 64 8 d
== 0
d=100101
@ latch: simulate --cycles 6 d#e=001011
> #C BLIFWW IN 32 8 d
#C BLIFWW IN 32 8 d#e
== 0
q=100101
";

/// The pattern of a latch that starts with 1.
pub const LATCH: &[u8] = b"\
#C BLIFWW 2 P 192 L 32 C 1
#C BLIFWW IN 32 8 d
#C BLIFWW OUT 64 8 q
x = 97, y = 48, rule = WireWorld
5$53.2C$35.19C.C$34.C18.2C.2C$32.2C23.8C$34.C18.2C.2C$35.C16.2C.C$36.C
14.C.2C$37.C12.C$38.C.2C7.C$39.2C.C5.C$40.2C.2C2.C$44.3C$40.2C.2C2.C$
39.2C.C5.C$38.C.2C7.C$37.C12.C$36.C14.C.2C$35.C16.2C.C$34.C18.2C.2C$
10.21CBAC23.30C$
9.C24.C18.2C.2C29.C$10.4C21.19C.C28.3C$14.C38.2C28.C$15.C66.C$16.C64.C
$16.C63.C$16.C63.C$16.C63.C$16.C63.C$16.C64.C$15.C66.C$14.C68.C$13.C
70.C$
10.3C72.2C$
9.C77.C$10.77C!
";
