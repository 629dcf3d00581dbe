// Parts of docs/TOUR.md, byte for byte.
pub const FLAT: &str = "weight 11
net 0: en
net 1: q
net 2: n
input 0: en
output 0: q
cover 0: n of en q, line 5
latch 0: n to q, init 0
";

pub const CELLS: &str = "cell 0: Xor(Input(0), Latch(0))
output 0: Latch(0)
latch 0: Cell(0)
net 0: Input(0)
net 1: Latch(0)
net 2: Cell(0)
";

pub const LANES: &str = "| column | instructions | lane 0 | lane 1 | lane 2 |
|---|---|---|---|---|
| before | | en |  | q |
| 0 | Swap(1) | en | q |  |
| 1 | Fork(1) | en | q | q |
| 2 | Xor(0) | n |  | q |
| 3 | Swap(0) |  | n | q |
| 4 | Swap(1) |  | q | n |
";
