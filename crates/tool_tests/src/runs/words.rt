// The words of the command line.

/// Words that are no command: the first call of the source would fail. Then come words in other orders and forms, the
/// greatest numbers, and words that are a command of which something else is refused.
pub const CASES: &[u8] = b"
> none & compile --contexts '' & simulate --cycles '' &  & compile 1:q=1 & \
compile --contexts 4294967296 & compile --contexts 0 & compile --contexts +2 & \
compile --contexts & compile compile & Compile & simulate & simulate a=01 & simulate a=01 b=01 & \
simulate --cycles & simulate --cycles 0 & simulate --cycles +7 & simulate --cycles 7x & \
simulate --cycles 1048577 & simulate --cycles 18446744073709551617 & \
simulate --cycles 3 --cycles 3 & simulate --rounds 3 & eval & eval --cycles 0 & \
probe --cycles 1 a=1 & window --gen 1 --x 0 --y 0 --width 0 --height 2 & make --seed +1 --size 2 & \
make --seed 1 --size 129 & make --seed 1 --size 2 x & tape --cycles 4097 & tape --cycles 0 & \
tape & aiger x & aiger --cycles 1 & vcd --cycles 0 & vcd a=01 & lift x & lift --cycles 1 & \
--help & -h & help & --version & simulate --help [0 99 99]
== 2
usage: blifww compile|simulate|eval|probe|window|make|self|tape|aiger|vcd|lift
> make --seed 001 --size 2 & make --size=2 --seed=1
== 0
.model made
...
@ toggle
> compile --contexts 1 & compile --contexts=01
== 0
#C BLIFWW 2 P 640 L ...
> compile --contexts 2 1:q=1 0:q=0 | simulate --cycles 4 & compile 1:q=1 --contexts=02 | simulate --cycles 4
== 0
0:q=0101
1:q=1010
> compile --contexts 4294967295
== 4
too large: contexts 4294967295 limit 20
@ gate
> eval --cycles 2 a=01 b=10 & eval a=01 b=10 --cycles 2
== 0
y=11
> eval --cycles 1048576 a=01 b=10
== 9
stream: BadLength a=01
> tape --cycles 4096 a=01
== 9
stream: BadLength a=01
@ gate's pattern
> simulate --cycles 007 a=0000000 b=0101010 & simulate --cycles=7 a=0000000 b=0101010 & simulate a=0000000 --cycles 7 b=0101010
== 0
y=0101010
> simulate --cycles 2 a=01 b=10 help
== 9
stream: NoEquals help
> simulate --cycles 1048576 a=01 b=10 & vcd --cycles 1048576 a=01 & probe --net y --cycles 1048576 a=01
== 9
stream: BadLength a=01
> probe --cycles 2 --net y a=01 b=00 & probe a=01 --path - --net y b=00 --cycles 2
== 0
y=01
";
