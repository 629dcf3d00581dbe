// Cells that are added one by one.
ghost use Rattle.std.specs.Prelude.{◌≡◌, ◌⊎◌, ◌&&◌, ◌||◌, not, true, length, IsTrue, IfOk};
ghost use Rattle.cell_core.specs.Sources.{reads_there, reads_one, is_one};
ghost use Rattle.cell_core.specs.Meaning.{bit_in, cell_bits, cell_bit};
ghost use Rattle.cell_sharing.specs.Grown.{HasSource, Answers};
ghost use Rattle.cell_meaning.specs.Mapped.{IsCell};

use crate::reduced::settle;
use crate::shared::{Places, find_cell};
use cell_core::{Cell, CellError, CellList, Src};
use std::alloc::Global;

/// Adds a cell, and returns its source.
pub fn add(
    list: &mut CellList,
    places: &mut Places,
    alloc: Global,
    cell: Cell,
) -> Result<Src, CellError>
    requires { IsTrue (reads_there list.old.inputs (length list.old.starts)
        (length list.old.cells) cell) }
    ensures value { IfOk result (λ src.
        Answers list.old list.new 1 (reads_one cell ≡ true) src (λ inputs state.
        cell_bit inputs state (cell_bits inputs state list.old.cells) cell)) }
    ensures cell { IfOk result (λ src. IsCell list.new src cell) }
{
    let Ok(place) = u32::try_from(list.cells.len()) else {
        return Err(CellError::NoMemory);
    };
    list.push(alloc, cell)?;
    places.note(cell, place)?;
    Ok(Src::Cell(place))
}

/// A source for the AND-NOT of two: 1 if the first is 1 and the second is 0.
pub fn and_not(
    list: &mut CellList,
    places: &mut Places,
    alloc: Global,
    a: Src,
    b: Src,
) -> Result<Src, CellError>
    requires first { HasSource list.old a }
    requires second { HasSource list.old b }
    ensures { IfOk result (λ src.
        Answers list.old list.new 1 ((is_one a ≡ true) ⊎ (is_one b ≡ true)) src (λ inputs state.
        bit_in list.old.cells inputs state a && not (bit_in list.old.cells inputs state b))) }
{
    settle(list, places, alloc, Cell::AndNot(a, b))
}

/// A source for the AND of two.
pub fn and(
    list: &mut CellList,
    places: &mut Places,
    alloc: Global,
    a: Src,
    b: Src,
) -> Result<Src, CellError>
    requires first { HasSource list.old a }
    requires second { HasSource list.old b }
    ensures { IfOk result (λ src.
        Answers list.old list.new 2 ((is_one a ≡ true) ⊎ (is_one b ≡ true)) src (λ inputs state.
        bit_in list.old.cells inputs state a && bit_in list.old.cells inputs state b)) }
{
    if let Some(negation) = find_cell(list, places, Cell::AndNot(Src::One, b)) {
        return and_not(list, places, alloc, a, negation);
    }
    let rest = and_not(list, places, alloc, a, b)?;
    and_not(list, places, alloc, a, rest)
}

/// A source for the OR of two.
pub fn or(
    list: &mut CellList,
    places: &mut Places,
    alloc: Global,
    a: Src,
    b: Src,
) -> Result<Src, CellError>
    requires first { HasSource list.old a }
    requires second { HasSource list.old b }
    ensures { IfOk result (λ src.
        Answers list.old list.new 1 ((is_one a ≡ true) ⊎ (is_one b ≡ true)) src (λ inputs state.
        bit_in list.old.cells inputs state a || bit_in list.old.cells inputs state b)) }
{
    settle(list, places, alloc, Cell::Or(a, b))
}
