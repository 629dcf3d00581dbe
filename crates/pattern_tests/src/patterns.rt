// Texts, and what is read from each: rows in the letters of extended RLE, or a fault and its line.
use crate::pages::Page;
use rle_read::RleReadError;

/// Appends the fault of a text and its line, or the size of a box past the limit.
pub fn push_error(page: &mut Page, error: RleReadError) {
    match error {
        RleReadError::Fault(fault) => {
            page.push_item(&fault.kind);
            page.push(b" ");
            page.push_number(fault.line);
        }
        RleReadError::TooLarge { width, height } => {
            page.push(b"TooLarge ");
            page.push_number(width);
            page.push(b" ");
            page.push_number(height);
        }
        RleReadError::NoMemory => page.cut(),
    }
}

/// Texts, and after `== ` their rows or faults. A line that begins with `>` parts two texts, and may
/// have a remark.
pub const TEXTS: &str = "
#CXRLE Pos=0,0
x = 3, y = 1, rule = wireworld
3C$!

== CCC$
>
#C BLIFWW 1 P 4 L 2
#C BLIFWW IN 0 0 a
#C BLIFWW OUT 2 0 y
x = 3, y = 1, rule = WireWorld
3C!

== CCC$
>
#C BLIFWW 1 P 32 L 0
x = 0, y = 0, rule = WireWorld
!

==\x20
>
# one

 \t
#two\r
\t x\t=  003 ,y = 1,\trule =\tWireWorld \t\r
3C!
== CCC$
>
x = 18446744073709551615, y = 0, rule = WireWorld
!
==\x20
>
x = 3, y = 2, rule = WireWorld
3A$.C!
== AAA$.C.$
>
x = 4, y = 3, rule = WireWorld
.ABC$$bo!
== .ABC$....$.A..$
>
x=3,y=1,rule=WIREWORLD
\t2C \r
\r
# 4C!
001C
!0C?
5C
== CCC$
>
x = 3, y = 1, rule = WireWorld
C99.$7$9b!
== C..$
>
x = 3, y = 1, rule = WireWorld
C18446744073709551615.18446744073709551615.$18446744073709551615$.!
== C..$
>
x = 3, y = 1, rule = WireWorld
!
== ...$
> faults of headers

== NoHeader 1
>
#x = 3, y = 1, rule = WireWorld
\x20

== NoHeader 2
>
#C
3C!
== NoHeader 2
>
y = 1, x = 3, rule = WireWorld
3C!
== NoHeader 1
>

x = 3
3C!
== BadHeader 2
>
x = 3, y = 1, rule =\t\x20
3C!
== BadHeader 1
>
x = 3, y = 1,
3C!
== BadHeader 1
>
x = , y = 1, rule = WireWorld
3C!
== BadHeader 1
>
x = 18446744073709551616, y = 0, rule = WireWorld
!
== BadHeader 1
>
x = 3, y = 1
3C!
== OtherRule 1
>
#C

x = 3, y = 1, rule = B3/S23
3C!
== OtherRule 3
>
x = 3, y = 1, rule = WireWorld, z = 1
3C!
== OtherRule 1
>
x = 16385, y = 16384, rule = Life
0C
== OtherRule 1
>
x = 3, y = 1, rule = WireWorld
== NoEnd 1
>
x = 16385, y = 16384, rule = WireWorld
0C
== TooLarge 16385 16384
> faults of items
x = 3, y = 1, rule = WireWorld
3D!
== BadItem 2
>
x = 3, y = 1, rule = WireWorld
3C#
!
== BadItem 2
>
x = 3, y = 1, rule = WireWorld
3C\r!
== BadItem 2
>
x = 3, y = 1, rule = WireWorld
0C!
== BadItem 2
>
x = 3, y = 1, rule = WireWorld
C18446744073709551616.!
== BadItem 2
>
x = 3, y = 1, rule = WireWorld
3 C!
== BadItem 2
>
x = 3, y = 1, rule = WireWorld
3\r
C!
== BadItem 2
>
x = 3, y = 1, rule = WireWorld
3
#C
C!
== BadItem 2
>
x = 3, y = 1, rule = WireWorld
2C
1!
== BadItem 3
>
x = 3, y = 1, rule = WireWorld
3C3

== BadItem 2
>
x = 3, y = 1, rule = WireWorld
4C!
== CellOutside 2
>
x = 3, y = 1, rule = WireWorld
3.
A!
== CellOutside 3
>
x = 3, y = 1, rule = WireWorld
$B!
== CellOutside 2
>
x = 3, y = 1, rule = WireWorld
18446744073709551615$18446744073709551615$C!
== CellOutside 2
>
x = 3, y = 1, rule = WireWorld
4C
0C!
== CellOutside 2
>
x = 3, y = 1, rule = WireWorld
0C
4C!
== BadItem 2
>
x = 3, y = 1, rule = WireWorld
3C$

== NoEnd 2
>
x = 3, y = 1, rule = WireWorld
3C
#!
== NoEnd 3
>
x = 3, y = 1, rule = WireWorld
3C
0
== NoEnd 3
>
x = 3, y = 1, rule = WireWorld
3C18446744073709551616
== NoEnd 2";
