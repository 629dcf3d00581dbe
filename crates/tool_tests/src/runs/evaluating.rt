// Runs of `eval`, and of `compile` over texts that both refuse.

/// Netlists that run, and texts and words that give no run.
pub const CASES: &[u8] = b"
> eval --cycles 1 & compile -- texts that are no netlists
== 1
B22 NoModel line 1: -
> eval --cycles 1 & compile
.inputs a
== 1
B1 NoModelYet line 1: .inputs
> eval --cycles 1 & compile
aag 0 0 0 0 0
== 1
B1 NoModelYet line 1: aag
> eval --cycles 1 & compile
.model m
.end
.names y
== 1
B10 AfterEnd line 3: .names
> eval --cycles 1 & compile
.model m
.outputs y
.names z y
1 1
== 1
B14 Undriven line 3: z
> eval --cycles 1 & compile
.model m
.subckt m
== 1
B19 Recursive line 2: m
> eval --cycles 1 & compile
.model m
.inputs d c e
.outputs q r
.latch d q re c 0
.latch d r re e 0
.end
== 1
B20 TwoClocks line 5: e
> eval --cycles 1 & compile
.model m
.inputs d clk
.outputs q y
.latch d q re clk 2
.names clk y
1 1
== 1
B21 ClockRead line 5: clk
> eval --cycles 1 & compile
.model m
.inputs a
.outputs x
.names x a x
11 1
.end
== 3
loop: x
> eval --cycles 1 & compile -- subckt lines whose model or pins are not there, or there twice
.model m
.outputs y
.subckt z a=y
== 1
B15 NoSuchModel line 3: z
> eval --cycles 1 & compile
.model m
.inputs a
.subckt s q=a
.end
.model s
.inputs p
.end
== 1
B16 NoSuchPin line 3: q
> eval --cycles 1 & compile
.model m
.inputs a
.subckt s p=a p=a
.end
.model s
.inputs p
.end
== 1
B17 PinTwice line 3: p
> eval --cycles 1 & compile
.model m
.inputs a
.subckt s
.end
.model s
.inputs p
.end
== 1
B18 PinMissing line 3: p
> eval --cycles 1 & compile -- an annotation ends a cover's rows, and is skipped
.model or
.inputs a b
.outputs y
.names a b y
.area 2
10 1
.end
== 1
B5 RowOutside line 6: 10
> eval --cycles 4 a=0011 b=0101 & compile | simulate --cycles 4 a=0011 b=0101
.model or
.inputs a b
.outputs y
.area 2
.names a b y
10 1
.end
== 0
y=0010
> eval --cycles 4 -- models inside models: a net goes in through two formals and comes out through a third
.model m
.outputs n
.subckt p u=n v=n w=n
.end
.model p
.inputs u v
.outputs w
.names u v d
00 1
.latch d w 0
.end
== 0
n=0101
> eval --cycles 1 & compile -- circles through models
.model a
.subckt b
.end
.model b
.subckt a
== 1
B19 Recursive line 2: a b
> eval --cycles 1 & compile
.model m
.outputs y
.subckt i a=y z=y
.end
.model i
.inputs a
.outputs z
.names a z
0 1
== 3
loop: y
> eval --cycles 1 & compile -- the lowest rule is told, and of it the earliest word
.model m
.inputs a a
== 1
B12 DuplicatePort line 2: a
> eval --cycles 1 & compile
.model m
.outputs y
.inputs y
== 1
B12 DuplicatePort line 3: y
> eval --cycles 1 & compile
.model m
.outputs y
.inputs a
.inputs a
== 1
B12 DuplicatePort line 4: a
> eval --cycles 1 & compile
.model m
.inputs a
.names a
== 1
B13 MultipleDrivers line 3: a
> eval --cycles 1 & compile
.model m
.end
.model s
.outputs q
== 1
B14 Undriven line 4: q
> eval --cycles 1 & compile
.model m
.subckt z
.subckt w
== 1
B15 NoSuchModel line 2: z
> eval --cycles 1 & compile
.model m
.subckt s q=y q=y
.end
.model s
.outputs q
.names q
== 1
B13 MultipleDrivers line 2: y
> eval --cycles 1 & compile
.model m
.subckt s
.end
.model s
.clock k
.inputs p
== 1
B18 PinMissing line 2: k
> eval --cycles 1 & compile
.model m
.subckt s
.subckt z
.end
.model s
.inputs p
== 1
B15 NoSuchModel line 3: z
> eval --cycles 1 & compile
.model m
.subckt a
.end
.model a
.subckt b
.end
.model b
.subckt a
== 1
B19 Recursive line 5: a b
> eval --cycles 1 & compile
.model m
.subckt m p=a
.inputs a
== 1
B16 NoSuchPin line 2: p
> eval --cycles 1 -- models without a fault
.model m
== 0
> eval --cycles 2 a=01
.model m
.inputs a
.outputs y
.subckt s p=a q=y
.end
.model s
.inputs p
.outputs q
.names p q
1 1
== 0
y=01
> eval --cycles 1 & compile -- lines at fault: the earliest one, and there the lowest rule
.end
== 1
B1 NoModelYet line 1: .end
> eval --cycles 1 & compile
11 1
.foo
== 1
B1 NoModelYet line 1: 11
> eval --cycles 1 & compile
.model a
.defaul x
== 1
B2 UnknownDirective line 2: .defaul
> eval --cycles 1 & compile
.model a
. x
== 1
B2 UnknownDirective line 2: .
> eval --cycles 1 & compile
.model a
.exdc
.foo
== 1
B3 Unsupported line 2: .exdc
> eval --cycles 1 & compile
.model a
.latch x y ah c 7
== 1
B3 Unsupported line 2: ah
> eval --cycles 1 & compile
.model a
.latch x y ah
== 1
B8 BadLatch line 2: .latch
> eval --cycles 1 & compile
.model
== 1
B4 BadCount line 1: .model
> eval --cycles 1 & compile
.model a
.model a b
== 1
B4 BadCount line 2: .model
> eval --cycles 1 & compile
.model a
.end a
== 1
B4 BadCount line 2: .end
> eval --cycles 1 & compile
.model a
.subckt
== 1
B4 BadCount line 2: .subckt
> eval --cycles 1 & compile
.model a
.names y
1
.attr x
1
== 1
B5 RowOutside line 5: 1
> eval --cycles 1 & compile
.model a
.names x y
.model b
1 1
== 1
B5 RowOutside line 4: 1
> eval --cycles 1 & compile
.model a
.names y
1 1
== 1
B6 BadRow line 3: 1
> eval --cycles 1 & compile
.model a
.names x y
11 0
== 1
B6 BadRow line 3: 11
> eval --cycles 1 & compile
.model a
.names x y
1 1
2 0
== 1
B6 BadRow line 4: 2
> eval --cycles 1 & compile
.model a
.names x y
1 1
- 0
== 1
B7 MixedCover line 4: -
> eval --cycles 1 & compile
.model a
.latch x
== 1
B8 BadLatch line 2: .latch
> eval --cycles 1 & compile
.model a
.latch x y 00
== 1
B8 BadLatch line 2: .latch
> eval --cycles 1 & compile
.model a
.subckt m a=b c= =d
== 1
B9 BadPin line 2: c=
> eval --cycles 1 & compile
.model a
.end
.foo
== 1
B10 AfterEnd line 3: .foo
> eval --cycles 1 & compile
.model a
.end
.end
== 1
B10 AfterEnd line 3: .end
> eval --cycles 1 & compile
.model a
.end
.model b
.model a
.foo
== 1
B11 DuplicateModel line 4: a
> eval --cycles 1 & compile
.model a
.subckt m a==
.latch x y re
== 1
B8 BadLatch line 3: .latch
> eval --cycles 1 & compile -- lines of all kinds
.model m
.inputs a b
.inputs
.inputs c
.outputs y
.clock k
.names a b y
11 1
-0 1
.names z
.names a x
1 0
.area 3
.latch d q
.latch d q re k 1
.latch d q fe NIL
.latch d q 2
.subckt s f=x==y g=h
.end
.model s
.default_input_arrival 1
== 1
B13 MultipleDrivers line 15: q
> eval --cycles 4 a=0011 b=0101 c=1100 & compile | simulate --cycles 4 a=0011 b=0101 c=1100
.model m
.inputs a b
.inputs
.inputs c
.outputs y z x q r s t x==y
.clock k
.names a b y
11 1
-0 1
.names z
.names a x
1 0
.area 3
.latch c q
.latch c r 1
.latch c s fe NIL
.latch c t 2
.subckt s f=x==y g=a
.end
.model s
.default_input_arrival 1
.inputs g
.outputs f
.names g f
1 1
== 0
y=1011
z=0000
x=1100
q=0110
r=1110
s=0110
t=0110
x==y=0011
> eval --cycles 1 & compile -- the earliest line on a circle: the model that is placed first is on another one
.model m
.subckt a
.subckt c
.end
.model c
.subckt d
.end
.model d
.subckt c
.end
.model a
.subckt b
.end
.model b
.subckt a
== 1
B19 Recursive line 6: c d
> eval --cycles 1 & compile
.model m
.subckt a
.end
.model a
.subckt b
.subckt a
.end
.model b
== 1
B19 Recursive line 6: a
@ gate
> eval --cycles 2 a=01 b=0 -- words that give a netlist no streams
== 9
stream: BadLength b=0
> eval --cycles 2 a=01
== 9
stream: MissingInput b
> eval --cycles 2 a=01 a=01 b=01
== 9
stream: TwiceInput a=01
";
