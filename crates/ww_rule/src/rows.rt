// Rows of cells: reversed, and their next states.
ghost use Rattle.std.specs.Prelude.{◌≡◌, ◌<◌, ◌≤◌, ◌-ℤ◌, ℕ, pos, [], ◌∷◌, length, map, reverse, ◌-◌, IfOk};
ghost use Rattle.lists.specs.Items.{list_at};
ghost use Rattle.ww_rule.specs.declared.pattern.State.TheVariants.{Head};
ghost use Rattle.ww_rule.specs.Wireworld.{count_head, heads_around, next_plane, next_state};
ghost use Rattle.ww_rule.specs.Grid.{plane_of, row_cell, AreOfOneLength};

use crate::RuleError;
use crate::cell_rows::CellRows;
use crate::pattern::State;
use lists::List;
use std::alloc::Global;

impl State {
    /// Returns what a cell becomes, by its state and the number of its eight neighbours that are
    /// heads (Silverman's rule).
    pub fn next(self, heads: usize) -> State
        ensures { result ≡ next_state self heads }
    {
        match self {
            State::Empty => State::Empty,
            State::Head => State::Tail,
            State::Tail => State::Conductor,
            State::Conductor => if heads == 1 || heads == 2 {
                State::Head
            } else {
                State::Conductor
            },
        }
    }
}

// 1 if the cell just west of column x of a row is a head, and 0 otherwise.
fn head_before(row: &[State], x: usize) -> usize
    ensures counted { result ≡ count_head (plane_of (row.now ∷ []) (pos x -ℤ pos 1) (pos 0)) }
    ensures few { result ≤ 1 }
{
    if x == 0 || x > row.len() {
        return 0;
    }
    match row[x - 1] {
        State::Head => 1,
        _ => 0,
    }
}

// How many of the eight cells around column x of the middle row of three are heads.
fn heads_near(above: &[State], row: &[State], below: &[State], x: usize) -> usize
    requires in_row { x < length row.now }
    ensures counted { result ≡ heads_around (plane_of (above.now ∷ row.now ∷ below.now ∷ []))
        (pos x) (pos 1) }
    ensures few { result ≤ 8 }
{
    let over = head_before(above, x) + head_before(above, x + 1) + head_before(above, x + 2);
    let beside = head_before(row, x) + head_before(row, x + 2);
    let under = head_before(below, x) + head_before(below, x + 1) + head_before(below, x + 2);
    over + beside + under
}

/// Computes the next states of the middle row of three, with empty cells all around the three.
pub fn next_row(
    alloc: Global,
    above: &[State],
    row: &[State],
    below: &[State],
) -> Result<List<State>, RuleError>
    ensures long { IfOk result (λ next. length next ≡ length row.now) }
    ensures cells { IfOk result (λ next. (x : ℕ) → x < length row.now →
        row_cell next x ≡ next_plane (plane_of (above.now ∷ row.now ∷ below.now ∷ [])) (pos x)
        (pos 1)) }
{
    let mut next = Vec::with_capacity(alloc, row.len())?;
    for (x, state) in row.iter().enumerate() {
        next.push(state.next(heads_near(above, row, below, x)))?;
    }
    Ok(List::of(next))
}

/// Returns the row just north of row y, or no cells if there is none.
pub fn row_before(rows: &CellRows, y: usize) -> &[State]
    ensures first { y ≡ 0 → result.now ≡ [] }
    ensures later { 0 < y → result.now ≡ list_at rows.now (y - 1) }
{
    if y == 0 {
        return &[];
    }
    rows.row_or_none(y - 1)
}

// The row from its end to its start.
fn reversed_row(alloc: Global, row: &[State]) -> Result<Vec<State>, RuleError>
    ensures { IfOk result (λ mirrored. mirrored.items ≡ reverse row.now) }
{
    Ok(row.iter().rev().copied().collect(alloc)?)
}

/// Reverses each of the rows.
pub fn reversed(alloc: Global, rows: &CellRows) -> Result<CellRows, RuleError>
    requires { AreOfOneLength rows.now }
    ensures { IfOk result (λ mirrored. mirrored ≡ map reverse rows.now) }
{
    let mut mirrored = CellRows::with_room(alloc, 0, 0)?;
    for y in 0..rows.len() {
        let row = reversed_row(alloc, rows.row(y))?;
        mirrored.push_row(&row)?;
    }
    Ok(mirrored)
}
