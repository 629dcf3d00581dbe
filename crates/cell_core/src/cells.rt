// Cells of two inputs, and what they read.
ghost use Rattle.std.specs.Prelude.{◌≡◌, IsTrue};
ghost use Rattle.cell_core.specs.Sources.{is_there, reads_there, is_one, reads_one};

/// What a cell or a port reads: an input, a latch or an earlier cell by its number from 0, or a
/// constant.
#[derive(Clone, Copy, Debug, PartialEq, Eq, PartialOrd, Ord)]
pub enum Src {
    Input(u32),
    Latch(u32),
    One,
    Zero,
    Cell(u32),
}

/// A cell of two inputs, which are the sources that it names.
#[derive(Clone, Copy, Debug, PartialEq, Eq, PartialOrd, Ord)]
pub enum Cell {
    /// 1 if at least one of the two is 1.
    Or(Src, Src),
    /// 1 if exactly one of the two is 1.
    Xor(Src, Src),
    /// 1 if the first is 1 and the second is 0.
    AndNot(Src, Src),
}

impl Src {
    /// Returns whether the source is there, if there are so many inputs, latches and cells.
    pub fn is_there(self, inputs: usize, latches: usize, cells: usize) -> bool
        ensures { result ≡ is_there inputs latches cells self }
    {
        match self {
            Src::Input(i) => (i as usize) < inputs,
            Src::Latch(i) => (i as usize) < latches,
            Src::One | Src::Zero => true,
            Src::Cell(i) => (i as usize) < cells,
        }
    }

    /// Returns whether the source is constant 1.
    pub fn is_one(self) -> bool
        ensures { result ≡ is_one self }
    {
        match self {
            Src::One => true,
            Src::Input(_) | Src::Latch(_) | Src::Zero | Src::Cell(_) => false,
        }
    }
}

impl Cell {
    /// Returns whether both sources of the cell are there, if there are so many inputs, latches and
    /// cells.
    pub fn reads_there(self, inputs: usize, latches: usize, cells: usize) -> bool
        ensures { result ≡ reads_there inputs latches cells self }
    {
        match self {
            Cell::Or(a, b) | Cell::Xor(a, b) | Cell::AndNot(a, b) => {
                a.is_there(inputs, latches, cells) && b.is_there(inputs, latches, cells)
            }
        }
    }

    /// Returns whether the cell reads constant 1.
    pub fn reads_one(self) -> bool
        ensures { result ≡ reads_one self }
    {
        match self {
            Cell::Or(a, b) | Cell::Xor(a, b) | Cell::AndNot(a, b) => a.is_one() || b.is_one(),
        }
    }
}

/// Returns whether the two are one source.
pub fn is_same_src(a: Src, b: Src) -> bool
    ensures { IsTrue result → a ≡ b }
{
    match (a, b) {
        (Src::Input(i), Src::Input(j)) => i == j,
        (Src::Latch(i), Src::Latch(j)) => i == j,
        (Src::Cell(i), Src::Cell(j)) => i == j,
        (Src::One, Src::One) => true,
        (Src::Zero, Src::Zero) => true,
        _ => false,
    }
}

/// Returns whether the two are one cell: the same operator, over the same sources.
pub fn is_same_cell(a: Cell, b: Cell) -> bool
    ensures { IsTrue result → a ≡ b }
{
    match (a, b) {
        (Cell::Or(p, q), Cell::Or(r, s)) => is_same_src(p, r) && is_same_src(q, s),
        (Cell::Xor(p, q), Cell::Xor(r, s)) => is_same_src(p, r) && is_same_src(q, s),
        (Cell::AndNot(p, q), Cell::AndNot(r, s)) => is_same_src(p, r) && is_same_src(q, s),
        _ => false,
    }
}
