// What `compile` writes, and what it shows when streams drive it.

/// The netlist of a latch that flips in each cycle.
pub const TOGGLE: &[u8] = b".model t\n.outputs q\n.latch n q 0\n.names q n\n0 1\n.end\n";

/// The netlist of an inverter.
pub const INVERTER: &[u8] = b".model n\n.inputs a\n.outputs y\n.names a y\n0 1\n";

/// Netlists and how their patterns begin: with the times and the names, some of which have escapes;
/// then netlists that print what their patterns print, drawn by lanes and as routed circuits.
pub const CASES: &[u8] = b"
> compile -- a gate is compiled by its names
.model X
.inputs X sum_of_2_inputs_0
.outputs _9
.names X sum_of_2_inputs_0 _9
1- 1
-1 1
.end
== 0
#C BLIFWW 2 P 32 L 32 C 1
#C BLIFWW IN 0 8 X
#C BLIFWW IN 0 24 sum_of_2_inputs_0
#C BLIFWW OUT 32 8 _9
#C BLIFWW NET 0 8 0 X -
#C BLIFWW NET 0 24 0 sum_of_2_inputs_0 -
#C BLIFWW NET 31 8 31 _9 -
x = 33, y = 32, rule = WireWorld
8$5C18.10C$5.C16.C$6.C14.C$7.C12.C$8.C10.C$9.C.2C5.C$10.2C.C3.C$11.2C.
C.C$15.C$11.2C.C$10.2C.C$9.C.2C$8.C$7.C$6.C$5.C$5C26.C!
> compile -- patterns begin with their times and names, of which some have escapes
.model m
.end
== 0
#C BLIFWW 2 P 32 L 0 C 1
x = 0, y = 0, rule = WireWorld
!
> compile
.model or
.inputs a b
.outputs y
.names a b y
10 1
.end
== 0
#C BLIFWW 2 P 32 L 32 C 1
...
> compile -- constant 0 has a lane that is never lit, and no loop
.model c
.outputs y
.names y
.end
== 0
#C BLIFWW 2 P 32 L ...
> compile
.model or
.inputs a% \xc3\xa9
.outputs y
.names a% \xc3\xa9 y
1- 1
-1 1
.end
== 0
#C BLIFWW 2 P 32 L 32 C 1
#C BLIFWW IN 0 8 a%25
#C BLIFWW IN 0 24 %C3%A9
#C BLIFWW OUT 32 8 y
#C BLIFWW NET 0 8 0 a%25 -
...
> eval --cycles 4 a=0011 b=0101 & compile|simulate --cycles 4 a=0011 b=0101 & route|simulate --cycles 4 a=0011 b=0101
.model or
.inputs a b
.outputs y
.names a b y
1- 1
-1 1
.end
== 0
y=0111
> eval --cycles 4 a=0011 b=0101 & compile|simulate --cycles 4 a=0011 b=0101 & route|simulate --cycles 4 a=0011 b=0101
.model or
.inputs a b
.outputs y
.names a b y
10 1
.end
== 0
y=0010
> eval --cycles 4 a=0110 & compile|simulate --cycles 4 a=0110 & route|simulate --cycles 4 a=0110
.model n
.inputs a
.outputs y
.names a y
0 1
== 0
y=1001
> eval --cycles 4 a=0011 b=0101 & compile|simulate --cycles 4 a=0011 b=0101 & route|simulate --cycles 4 a=0011 b=0101
.model or
.inputs a b
.outputs y
.names a b y
11 0
.end
== 0
y=1110
> eval --cycles 3 & compile|simulate --cycles 3 & route|simulate --cycles 3
.model c
.outputs y
.names y
1
.end
== 0
y=111
> eval --cycles 3 & compile|simulate --cycles 3 & route|simulate --cycles 3
.model c
.outputs y
.names y
.end
== 0
y=000
> eval --cycles 4 & compile|simulate --cycles 4 & route|simulate --cycles 4
.model t
.outputs q
.latch n q 0
.names q n
0 1
.end
== 0
q=0101
> eval --cycles 4 d=0010 & compile|simulate --cycles 4 d=0010 & route|simulate --cycles 4 d=0010
.model r
.inputs d
.outputs q
.latch d q 1
.end
== 0
q=1001
> eval --cycles 4 a=0011 b=0101 & compile|simulate --cycles 4 a=0011 b=0101 & route|simulate --cycles 4 a=0011 b=0101
.model x
.inputs a b
.outputs p q
.names b p
1 1
.names a q
1 1
.end
== 0
p=0101
q=0011
> eval --cycles 2 d=11 & compile|simulate --cycles 2 d=11 & route|simulate --cycles 2 d=11
.model r
.inputs d
.outputs q
.latch d q
.end
== 0
q=01
> eval --cycles 2 a=01 & compile|simulate --cycles 2 a=01 & route|simulate --cycles 2 a=01
.model f
.inputs a
.outputs y0 y1 y2 y3 y4
.names a y0
1 1
.names a y1
1 1
.names a y2
1 1
.names a y3
1 1
.names a y4
1 1
.end
== 0
y0=01
y1=01
y2=01
y3=01
y4=01
> eval --cycles 5 & compile|simulate --cycles 5 & route|simulate --cycles 5
.model k
.outputs q0 q1
.latch n0 q0 0
.latch n1 q1 0
.names q0 n0
0 1
.names q0 q1 n1
10 1
01 1
.end
== 0
q0=01010
q1=00110
> eval --cycles 1 a0=1 a1=1 b0=1 b1=0 ci=0 & compile | simulate --cycles 1 a0=1 a1=1 b0=1 b1=0 ci=0
.model add
.inputs a0 a1 b0 b1 ci
.outputs s0 s1 c
.subckt fa a=a0 b=b0 c=ci s=s0 co=k
.subckt fa a=a1 b=b1 c=k s=s1 co=c
.end
.model fa
.inputs a b c
.outputs s co
.names a b c s
100 1
010 1
001 1
111 1
.names a b c co
11- 1
1-1 1
-11 1
.end
== 0
s0=0
s1=0
c=1
> eval --cycles 2 d=10 & compile|simulate --cycles 2 d=10 & route|simulate --cycles 2 d=10
.model m
.inputs d \\
clk # two
.outputs q
.latch d q re clk 2
.end
== 0
q=01
";
