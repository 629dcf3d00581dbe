// Commands that write one text.

/// The same command twice in one process, and a command with and without words that change nothing: one context without
/// words for its starts, and a tape without inputs, are what `compile` writes.
pub const CASES: &[u8] = b"
@ gate
> compile & compile
== 0
#C BLIFWW 2 P ...
> route & route
== 0
#C gate ...
== err
box ...
@ inverter
> compile & compile
== 0
#C BLIFWW 2 P ...
@ toggle
> compile & compile & compile --contexts 1 & tape --cycles 4
== 0
#C BLIFWW 2 P ...
> compile --contexts 2 1:q=1 & compile --contexts 2 1:q=1
== 0
#C BLIFWW 2 P ...
> tape --cycles 3 & tape --cycles 3
== 0
#C BLIFWW 2 P ...
> route & route
== 0
#C gate ...
== err
box ...
@ counter
> compile & compile
== 0
#C BLIFWW 2 P ...
> route --nets & route --nets
== 0
#C gate ...
== err
box ...
@ adder
> compile & compile
== 0
#C BLIFWW 2 P ...
> route & route
== 0
#C gate ...
== err
box ...
";
