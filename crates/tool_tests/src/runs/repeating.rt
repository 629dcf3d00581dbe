// Texts that repeat a part: models inside models, weights near the limit and far beyond it, a long
// loop, texts at the limit of length and beyond it, and the longest tape.
use crate::runs::runner::Runner;
use crate::runs::{Case, are_ends, halves};
use itoa::Buffer;

/// Cases that each begin with a number of repetitions and a command. Their commands and texts repeat
/// what stands in braces, where `%` stands for the number of the repetition, counted from 0.
pub const CASES: &[u8] = b"
> 300 eval --cycles 3 a=011 -- models that each place the next; the last one inverts its input
.model c{
.inputs a
.outputs y
.subckt c% a=a y=y
.end
.model c%}
.inputs a
.outputs y
.names a y
0 1
.end
== 0
y=100
> 500 eval --cycles 1 -- a model that places another in each repetition
.model m
.outputs y
.names y
1
{.subckt leaf
}.end
.model leaf
.end
== 0
y=1
> 8190 compile -- a model with an input for each repetition: the greatest weight, and a greater one
.model m
.inputs{ i%}
.outputs y
.names y
.end
== 0
#C BLIFWW 2 P 32 L ...
> 8190 eval --cycles 1
.model m
.inputs{ i%}
.outputs y
.names y
.end
== 9
stream: MissingInput i0
> 8191 eval --cycles 1 & compile
.model m
.inputs{ i%}
.outputs y
.names y
.end
== 4
too large: weight 8193 limit 8192
> 300 eval --cycles 1 -- a full adder weighs 32, each place of a model 1, and a clock beside its inputs 1
.model m
.inputs x
{.subckt fa a=x b=x c=x
}.end
.model fa
.inputs a b c
.outputs s co
.names a b c s
100 1
010 1
001 1
111 1
.names a b c co
11- 1
1-1 1
-11 1
== 4
too large: weight 9901 limit 8192
> 300 eval --cycles 1
.model m
.inputs x
{.subckt fa a=x b=x c=x
}.end
.model fa
.inputs a b c
.outputs s co
.names a b c s
100 1
010 1
001 1
111 1
.names a b c co
11- 1
1-1 1
-11 1
.clock a
== 4
too large: weight 9901 limit 8192
> 300 eval --cycles 1
.model m
.inputs x
{.subckt fa a=x b=x c=x clk=x
}.end
.model fa
.inputs a b c
.outputs s co
.names a b c s
100 1
010 1
001 1
111 1
.names a b c co
11- 1
1-1 1
-11 1
.clock a clk
== 4
too large: weight 10201 limit 8192
> 2048 aiger -- each output of a circuit weighs 4, and every circuit 2 more
aag 0 0 0 2048 0
{0
}== 4
too large: weight 8194 limit 8192
> 20 route -- a netlist of weight 400 is drawn without a notice
.model m
.inputs a b c d e f g h i j k l m n o p q r
.outputs y
.names a b c d e f g h i j k l m n o p q r y
{111111111111111111 1
}== 0
#C gate ...
== err
box ...
> 1637 aiger -- an input weighs 1, a gate 4, an output 4: the greatest weight, a greater one, and one with a loop
aag 158200 1638 0 1 1637
2
{1%0
}301
{3%0 2 2
}== 0
#C BLIFWW 2 P 320 L 96 C 1
...
> 1637 aiger
aag 158200 1639 0 1 1637
2
4
{1%0
}301
{3%0 2 2
}== 4
too large: weight 8193 limit 8192
> 1637 aiger
aag 158200 1638 0 1 1638
2
{1%0
}301
{3%0 2 2
}4 4 2
== 4
too large: weight 8196 limit 8192
> 2000 aiger -- a latch weighs 5, whatever its reset
aag 200000 0 2000 0 0
{1%0 0
}== 4
too large: weight 10002 limit 8192
> 2000 aiger
aag 200000 0 2000 0 0
{1%0 0 1%0
}== 4
too large: weight 10002 limit 8192
> 2000 aiger [9999 0 12904] -- a long loop
aag 1999995 1 0 1 2001
2
3999991
3999990 3{%0 2
3%0 3}999990 2
== 3
loop: 319990 319980 ...300 3999990
> 2000 aiger [9999 0 12903]
aag 1999995 1 0 1 2001
2
3999991
3999990 3{%0 2
3%0 3}999990 2
== 6
loop: 319990 319980 ...300 3999990> 40 eval --cycles 1 & compile -- models that each place the next one twice
.model h{
.subckt h%
.subckt h%
.end
.model h%}
.names y
.end
== 4
too large: weight 3298534883326 limit 8192
> 62 eval --cycles 1 & compile
.model h{
.subckt h%
.subckt h%
.end
.model h%}
.names y
.end
== 4
too large: weight 13835058055282163710 limit 8192
> 63 eval --cycles 1 & compile
.model h{
.subckt h%
.subckt h%
.end
.model h%}
.names y
.end
== 4
too large: weight 18446744073709551615 limit 8192
> 2048 tape --cycles 4096 a={01} b={01} c={01} d={01} e={01} f={01} g={01} h={01} -- the longest tape, and what it shows
.model e
.inputs a b c d e f g h
.outputs y
.names a b c d e f g h y
1------- 1
-1------ 1
--1----- 1
---1---- 1
----1--- 1
-----1-- 1
------1- 1
-------1 1
.end
== 0
#C BLIFWW 2 P 32 L ...!
> 2048 tape --cycles 4096 a={01} b={01} c={01} d={01} e={01} f={01} g={01} h={01} | simulate --cycles 2
.model e
.inputs a b c d e f g h
.outputs y
.names a b c d e f g h y
1------- 1
-1------ 1
--1----- 1
---1---- 1
----1--- 1
-----1-- 1
------1- 1
-------1 1
.end
== 0
y=01
> 95 vcd --cycles 1 a=1 [999 2176 99] -- of the nets of a dump the last id of one digit, and the first of two
#C BLIFWW 1 P 4 L 2
#C BLIFWW IN 0 0 a{
#C BLIFWW NET 0 0 0 n% -}
x = 3, y = 1, rule = WireWorld
3C!
== 6
...$var wire 1 ~ n93 $end
$var wire 1 !\" n94 $end
== err
write fault
> 1048576 compile -- a text of 16,777,216 bytes, and one that is a byte longer
{################}== 1
B22 NoModel line 1: -
> 1048576 compile
{################}#== 4
too long: limit 16777216
> 1048576 compile -- a text of 16,777,216 line ends, and one with one more
{















}== 1
B22 NoModel line 1: -
> 1048576 compile
{















}
== 4
too long: limit 16777216
";

// Adds a part with a number in place of each `%`. Returns whether memory ran out.
fn push_numbered(text: &mut String, part: &str, number: &str) -> bool {
    let mut is_short = false;
    for piece in part.split_inclusive('%') {
        let (front, _) = halves(piece, "%");
        let digits = if front.len() < piece.len() {
            number
        } else {
            ""
        };
        is_short |= text.push_str(front).is_err() | text.push_str(digits).is_err();
    }
    is_short
}

// Adds a piece of a text, with so many repetitions of what stands after its brace.
fn push_piece(text: &mut String, piece: &str, times: usize) -> bool {
    let (begin, part) = halves(piece, "{");
    let mut is_short = text.push_str(begin).is_err();
    let mut digits = Buffer::new();
    for number in 0..times {
        is_short |= push_numbered(text, part, digits.format(number));
    }
    is_short
}

// Adds a text with so many repetitions of what stands in braces.
fn push_repeated(text: &mut String, of: &str, times: usize) -> bool {
    let mut is_short = false;
    for piece in of.split('}') {
        is_short |= push_piece(text, piece, times);
    }
    is_short
}

/// Returns whether commands end as a case wants if they and its text repeat so often what stands in braces.
pub fn is_repeated(runner: &mut Runner, case: &Case, of: &str, times: usize) -> bool {
    let (mut commands, mut text) = (String::new(runner.alloc()), String::new(runner.alloc()));
    let is_short = push_repeated(&mut commands, of, times)
        | push_repeated(&mut text, case.text, times);
    let is_so = !is_short && are_ends(runner, case, &commands, text.as_bytes());
    drop(commands);
    drop(text);
    is_so
}
