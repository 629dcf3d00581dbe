// Two lists that run alike.
ghost use Rattle.std.specs.Prelude.{IfOk, IsTrue};
ghost use Rattle.list_matching.specs.Alike.{RunAlike};

use crate::MatchError;
use crate::matched::{are_stand_ins, cell_over, turned};
use cell_core::{Cell, CellList, Src};
use std::alloc::Global;
use std::collections::BTreeMap;

// The places of cells, also of those turned. Of equal cells the last one counts.
fn places(alloc: Global, cells: &[Cell]) -> Result<BTreeMap<Cell, usize>, MatchError> {
    let mut places = BTreeMap::new(alloc);
    for (place, cell) in cells.iter().enumerate() {
        places.insert(turned(*cell), place)?;
    }
    for (place, cell) in cells.iter().enumerate() {
        places.insert(*cell, place)?;
    }
    Ok(places)
}

// The source that is to stand for a cell over sources of the wanted list.
fn place_of(places: &BTreeMap<Cell, usize>, cell: Cell) -> Src {
    match places.get(&cell).copied().map(u32::try_from) {
        Some(Ok(place)) => Src::Cell(place),
        _ => Src::Zero,
    }
}

/// Returns the sources of the wanted list that are to stand for cells, each found by those that stand
/// for its operands; constant 0 for a cell that is not there.
pub fn stand_ins(
    alloc: Global,
    found: &[Cell],
    wanted: &[Cell],
    latches: &[Src],
) -> Result<Vec<Src>, MatchError> {
    let places = places(alloc, wanted)?;
    let mut cells = Vec::new(alloc);
    for cell in found {
        let src = place_of(&places, cell_over(&cells, latches, *cell));
        cells.push(src)?;
    }
    Ok(cells)
}

/// Returns whether a list of cells runs as the wanted one: whether on all rows of input bits its
/// outputs and nets have the same bits in each cycle. `latches` are the sources of the wanted list
/// that are to stand for the latches of the list that was found: latches, or constant 1 for one that
/// starts with 1 and reads itself. The found cells are looked up among the wanted ones, in whatever
/// order these stand. The answer may be `false` for lists that run alike, even for a list and itself
/// if it has a cell twice.
pub fn run_alike(
    alloc: Global,
    found: &CellList,
    wanted: &CellList,
    latches: &[Src],
) -> Result<bool, MatchError>
    ensures { IfOk result (λ alike. IsTrue alike → RunAlike found.now wanted.now) }
{
    let cells = stand_ins(
        alloc,
        found.cells.as_slice(),
        wanted.cells.as_slice(),
        latches,
    )?;
    Ok(are_stand_ins(found, wanted, &cells, latches))
}
