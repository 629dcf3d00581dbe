// Words of bits of up to 64 cells of a row.
ghost use Rattle.std.specs.Prelude.{◌≡◌, ◌<◌, ◌≤◌, ◌*◌, ◌==◌, ℕ, if◌then◌else◌, false, length, take, drop};
ghost use Rattle.ww_rule.specs.declared.pattern.State.TheVariants.{Empty};
ghost use Rattle.ww_rule.specs.Grid.{row_cell};

use ww_rule::State;

/// The bits of up to 64 cells: of those that are heads, of those that are tails, and of all that
/// are not empty.
#[derive(Clone, Copy)]
pub struct CellBits {
    pub heads: u64,
    pub tails: u64,
    pub cells: u64,
}

// Whether a cell is not empty.
fn is_filled(state: State) -> bool
    ensures { result ≡ false → state ≡ Empty }
{
    match state {
        State::Empty => false,
        _ => true,
    }
}

/// Returns whether one of the cells is not empty. It looks at all of them, and so at many at once.
pub fn any_filled(cells: &[State]) -> bool
    ensures { result ≡ false → (x : ℕ) → row_cell cells.now x ≡ Empty }
{
    let mut any = false;
    for state in cells {
        any = any | is_filled(*state);
    }
    any
}

/// Returns the cells of the c-th word of a row.
pub fn cells_of_word(cells: &[State], c: usize) -> &[State]
    requires { 64 * c < length cells.now }
    ensures { result.now ≡ take 64 (drop (64 * c) cells.now) }
{
    let rest = &cells[64 * c..];
    if rest.len() < 64 { rest } else { &rest[..64] }
}

impl CellBits {
    ghost use Rattle.band_rows.specs.CellWords.{state_by, IsOnCells};

    // The bits of cells that are all empty.
    fn empty() -> CellBits
        ensures states { (b : ℕ) → state_by result b ≡ Empty }
        ensures on_cells { IsOnCells result }
    {
        CellBits {
            heads: 0,
            tails: 0,
            cells: 0,
        }
    }

    // The bits with those of cell b, which was empty.
    fn with_cell(self, b: usize, state: State) -> CellBits
        requires bit { b < 64 }
        requires empty { state_by self b ≡ Empty }
        requires on_cells { IsOnCells self }
        ensures states { (i : ℕ)
            → state_by result i ≡ (if i == b then state else state_by self i) }
        ensures on_cells { IsOnCells result }
    {
        let bit = 1 << b;
        match state {
            State::Empty => self,
            State::Head => CellBits {
                heads: self.heads | bit,
                tails: self.tails,
                cells: self.cells | bit,
            },
            State::Tail => CellBits {
                heads: self.heads,
                tails: self.tails | bit,
                cells: self.cells | bit,
            },
            State::Conductor => CellBits {
                heads: self.heads,
                tails: self.tails,
                cells: self.cells | bit,
            },
        }
    }

    /// Returns the bits of up to 64 cells.
    pub fn of_cells(cells: &[State]) -> CellBits
        requires { length cells.now ≤ 64 }
        ensures states { (b : ℕ) → state_by result b ≡ row_cell cells.now b }
        ensures on_cells { IsOnCells result }
    {
        let mut bits = CellBits::empty();
        for (b, state) in cells.iter().enumerate() {
            bits = bits.with_cell(b, *state);
        }
        bits
    }
}
