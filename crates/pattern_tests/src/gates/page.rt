// docs/GATES.md, byte for byte.
pub const PAGE: &str = "# Gates

A test of `pattern_tests` compares each gate's table and drawing with those of `gate_library`, and the gate compares the
page with `crates/pattern_tests/src/gates/page.rt`, byte for byte.

A routed circuit is made of these gates, which stand at least two cells apart, and of wires between their ports. A wire
is a row of cells of any shape, each beside no drawn cell but the one before it and the one after it.

In the drawings `.` is an empty cell and `C` a conductor. The ports are conductors too: `a` and `b` are the first and
the second input, and `y`, `z`, `u` and `t` the outputs, in this order. A table says at which generation of a use a port
is lit, and what an output's bit is. At no other generation is a port lit.

After as many generations as its time says a gate may be used again; so the period of a circuit is at least the time of
each of its gates. If its inputs are apart, they may be lit at any two generations that are at least the time apart,
also modulo the period, which is then at least twice the time; and an output is lit so many generations after the input
that it copies. That each drawing keeps its law with its time is computed by `keeps_law` and `keeps_crossing_law`: it is
[proved](../crates/gate_laws/src/window.rt) that the law holds if they say so. With a smaller time they do not: this is
tested.

Signals run east in the drawings, and each drawing is there in eight turns. The name of a kind is a gate's name, a
hyphen and a letter for the turn: E, S, W or N for the direction in which the signals run, and a small letter if the
drawing is mirrored at that direction first. So `CROSS-E` is the CROSS below, and in `CROSS-e` the input `a` is the
lower one.

## LONE

| Port | Lit at | Bit |
|---|---|---|
| `a` | 0 | |
| `y` | 0 | a |

Time 3, box 1 x 1, cells 1.

```text
a
```

One cell of a wire: an input, an output, or a point from which up to three wires go on; its output is the same cell. A
signal that comes by one wire lights the others, and its own tail is behind it.

## FORK

| Port | Lit at | Bit |
|---|---|---|
| `a` | 0 | |
| `y` | 2 | a |
| `z` | 2 | a |

Time 3, box 3 x 5, cells 5.

```text
..y
.C.
a..
.C.
..z
```

One signal goes on twice. Behind each of the two heads is a tail, so none turns back.

## OR

| Port | Lit at | Bit |
|---|---|---|
| `a` | 0 | |
| `b` | 0 | |
| `y` | 2 | a or b |

Time 3, box 3 x 5, cells 7.

```text
a..
.C.
CCy
.C.
b..
```

1 if at least one of the two is 1. A signal from one input lights the three cells of the bar at once. The cell before
the other input then has three heads beside it, and stays dark.

## XOR

| Port | Lit at | Bit |
|---|---|---|
| `a` | 0 | |
| `b` | 0 | |
| `y` | 4 | a xor b |

Time 5, box 5 x 7, cells 15.

```text
a....
.C...
CCCC.
C..Cy
CCCC.
.C...
b....
```

1 if exactly one of the two is 1. A signal goes round the ring on both sides and meets itself before the other input,
where three heads are beside a cell at once, so it stays dark. So does `y` if both signals come.

## XOR2

| Port | Lit at | Bit |
|---|---|---|
| `a` | 0 | |
| `b` | 0 | |
| `y` | 4 | a xor b |
| `z` | 4 | a xor b |

Time 5, box 5 x 5, cells 14.

```text
a.C.y
.CCC.
C...C
.CCC.
z.C.b
```

The same in a diamond, with an exit at both other corners. What goes round meets itself before the other input, where
three heads are beside a cell at once. Wires go on diagonally.

## ANDNOT

| Port | Lit at | Bit |
|---|---|---|
| `a` | 2 | |
| `b` | 0 | |
| `y` | 4 | a and not b |

Time 5, box 3 x 5, cells 8.

```text
a.y
.C.
CCC
.C.
b..
```

The upper signal without the lower one, which comes two generations earlier. It lights the three cells of the bar, and
these block the cell between `a` and `y`; a signal from `a` lights them too, and they block the cell before `b`.

## ANDNOT-LEVEL

| Port | Lit at | Bit |
|---|---|---|
| `a` | 0 | |
| `b` | 0 | |
| `y` | 4 | a and not b |

Time 5, box 5 x 7, cells 15.

```text
a....
.C...
CCC..
C..C.
CCCCy
.C.C.
b....
```

The upper signal without the lower one; both come at the same time. A signal from either input goes round the ring and
meets itself before the other, where three heads are beside a cell at once. If `b` is 1, three heads are beside `y`.

## CROSS

| Port | Lit at | Bit |
|---|---|---|
| `a` | 0 | |
| `b` | 0 | |
| `y` | 4 | b |
| `z` | 4 | a |

Time 5, box 5 x 7, cells 18, inputs apart.

```text
a....
.C.C.
CCCCy
C..C.
CCCCz
.C.C.
b....
```

Two signals change places. Each goes round the ring: three heads are beside the exit on its own side one generation
before it leaves by the other, and then beside the cell before the other input.

## TAP

| Port | Lit at | Bit |
|---|---|---|
| `a` | 0 | |
| `b` | 0 | |
| `y` | 4 | b |
| `z` | 4 | a |
| `u` | 4 | b |

Time 5, box 5 x 7, cells 19, inputs apart.

```text
a....
.C.C.
CCCCy
C..C.
CCCCz
.C.C.
b...u
```

A CROSS whose lower signal also goes on. The upper one does not reach `u`: three heads are beside the cell before it.

## TAP2

| Port | Lit at | Bit |
|---|---|---|
| `a` | 0 | |
| `b` | 0 | |
| `y` | 4 | b |
| `z` | 4 | a |
| `u` | 4 | b |
| `t` | 4 | a |

Time 5, box 5 x 7, cells 20, inputs apart.

```text
a...t
.C.C.
CCCCy
C..C.
CCCCz
.C.C.
b...u
```

A CROSS whose signals both also go on. Neither reaches the other's exit straight ahead: three heads are beside the cell
before it.
";
