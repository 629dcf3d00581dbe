// Runs of `probe` for each net of a netlist, and of `eval` with each net of its main model as a
// further output: a net that both print has the same bits in both.

/// The netlist of a counter with two latches.
pub const COUNTER: &[u8] =
    b".model k\n.outputs q0 q1\n.latch n0 q0 0\n.latch n1 q1 0\n.names q0 n0\n0 1\n.names q0 q1 n1\n10 1\n01 1\n.end\n";

/// The netlist of an adder of two bits, made of two full adders.
pub const ADDER: &[u8] =
    b".model add\n.inputs a0 a1 b0 b1 ci\n.outputs s0 s1 c\n.subckt fa a=a0 b=b0 c=ci s=s0 co=k\n.subckt fa a=a1 b=b1 c=k s=s1 co=c\n.end\n.model fa\n.inputs a b c\n.outputs s co\n.names a b c s\n100 1\n010 1\n001 1\n111 1\n.names a b c co\n11- 1\n1-1 1\n-11 1\n.end\n";

/// What the netlists' patterns show at each net, and changes that make a net the first output. A
/// port cannot become an output again.
pub const CASES: &[u8] = b"
@ toggle
> compile | probe --net q --path - --cycles 4
== 0
q=0101
> compile | probe --net n --path - --cycles 4
== 0
n=1010
@ counter
> compile | probe --net q0 --path - --cycles 5
== 0
q0=01010
> compile | probe --net q1 --path - --cycles 5
== 0
q1=00110
> compile | probe --net n0 --path - --cycles 5
== 0
n0=10101
> compile | probe --net n1 --path - --cycles 5
== 0
n1=01100
@ adder
> compile | probe --net a0 --path - --cycles 1 a0=1 a1=1 b0=1 b1=0 ci=0
== 0
a0=1
> compile | probe --net a1 --path - --cycles 1 a0=1 a1=1 b0=1 b1=0 ci=0
== 0
a1=1
> compile | probe --net b0 --path - --cycles 1 a0=1 a1=1 b0=1 b1=0 ci=0
== 0
b0=1
> compile | probe --net b1 --path - --cycles 1 a0=1 a1=1 b0=1 b1=0 ci=0
== 0
b1=0
> compile | probe --net ci --path - --cycles 1 a0=1 a1=1 b0=1 b1=0 ci=0
== 0
ci=0
> compile | probe --net s0 --path - --cycles 1 a0=1 a1=1 b0=1 b1=0 ci=0
== 0
s0=0
> compile | probe --net s1 --path - --cycles 1 a0=1 a1=1 b0=1 b1=0 ci=0
== 0
s1=0
> compile | probe --net c --path - --cycles 1 a0=1 a1=1 b0=1 b1=0 ci=0
== 0
c=1
> compile | probe --net k --path - --cycles 1 a0=1 a1=1 b0=1 b1=0 ci=0
== 0
k=1
> compile | probe --net a --path 0 --cycles 1 a0=1 a1=1 b0=1 b1=0 ci=0
== 0
a=1
> compile | probe --net b --path 0 --cycles 1 a0=1 a1=1 b0=1 b1=0 ci=0
== 0
b=1
> compile | probe --net c --path 0 --cycles 1 a0=1 a1=1 b0=1 b1=0 ci=0
== 0
c=0
> compile | probe --net s --path 0 --cycles 1 a0=1 a1=1 b0=1 b1=0 ci=0
== 0
s=0
> compile | probe --net co --path 0 --cycles 1 a0=1 a1=1 b0=1 b1=0 ci=0
== 0
co=1
> compile | probe --net a --path 1 --cycles 1 a0=1 a1=1 b0=1 b1=0 ci=0
== 0
a=1
> compile | probe --net b --path 1 --cycles 1 a0=1 a1=1 b0=1 b1=0 ci=0
== 0
b=0
> compile | probe --net c --path 1 --cycles 1 a0=1 a1=1 b0=1 b1=0 ci=0
== 0
c=1
> compile | probe --net s --path 1 --cycles 1 a0=1 a1=1 b0=1 b1=0 ci=0
== 0
s=0
> compile | probe --net co --path 1 --cycles 1 a0=1 a1=1 b0=1 b1=0 ci=0
== 0
co=1
@ toggle: eval --cycles 4
> .model t
.model t
.outputs q
== 1
B12 DuplicatePort line 3: q
> .model t
.model t
.outputs n
== 0
n=1010
q=0101
@ counter: eval --cycles 5
> .model k
.model k
.outputs q0
== 1
B12 DuplicatePort line 3: q0
> .model k
.model k
.outputs q1
== 1
B12 DuplicatePort line 3: q1
> .model k
.model k
.outputs n0
== 0
n0=10101
q0=01010
q1=00110
> .model k
.model k
.outputs n1
== 0
n1=01100
q0=01010
q1=00110
@ adder: eval --cycles 1 a0=1 a1=1 b0=1 b1=0 ci=0
> .model add
.model add
.outputs a0
== 1
B12 DuplicatePort line 3: a0
> .model add
.model add
.outputs a1
== 1
B12 DuplicatePort line 3: a1
> .model add
.model add
.outputs b0
== 1
B12 DuplicatePort line 3: b0
> .model add
.model add
.outputs b1
== 1
B12 DuplicatePort line 3: b1
> .model add
.model add
.outputs ci
== 1
B12 DuplicatePort line 3: ci
> .model add
.model add
.outputs s0
== 1
B12 DuplicatePort line 4: s0
> .model add
.model add
.outputs s1
== 1
B12 DuplicatePort line 4: s1
> .model add
.model add
.outputs c
== 1
B12 DuplicatePort line 4: c
> .model add
.model add
.outputs k
== 0
k=1
s0=0
s1=0
c=1
";
