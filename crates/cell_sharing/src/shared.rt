// Cells that are there already.
ghost use Rattle.std.specs.Prelude.{◌≡◌, true, false, length, Some, None, IsTrue, IfOk, OnOk, IfSome};
ghost use Rattle.std.specs.BTreeMap.{is_at};
ghost use Rattle.cell_core.specs.Sources.{reads_there, reads_one};
ghost use Rattle.cell_core.specs.Meaning.{cell_bits, cell_bit};
ghost use Rattle.cell_sharing.specs.Grown.{Answers};
ghost use Rattle.cell_meaning.specs.Mapped.{IsCell};

use crate::gates::add;
use cell_core::{Cell, CellError, CellList, Src, is_same_cell};
use std::alloc::Global;
use std::collections::BTreeMap;

/// The places of cells in a list, as notes of where to look: the cell at a place is compared before
/// it is used.
#[derive(Drop)]
pub struct Places {
    by_cell: BTreeMap<Cell, u32>,
}

impl Places {
    ghost use Rattle.cell_sharing.specs.Noted.{place_in};

    /// Makes the notes of no cells.
    pub fn new(alloc: Global) -> Places
        ensures { (cell : Cell) → place_in ⟦<Cell as Ord>⟧.cmp result cell ≡ None }
    {
        Places {
            by_cell: BTreeMap::new(alloc),
        }
    }

    /// Notes the place of a cell.
    pub fn note(&mut self, cell: Cell, place: u32) -> Result<(), CellError>
        ensures noted { OnOk result (place_in ⟦<Cell as Ord>⟧.cmp self.new cell ≡ Some place) }
        ensures others { OnOk result ((other : Cell) →
            is_at (⟦<Cell as Ord>⟧.cmp cell) other ≡ false →
            place_in ⟦<Cell as Ord>⟧.cmp self.new other ≡
            place_in ⟦<Cell as Ord>⟧.cmp self.old other) }
    {
        self.by_cell.insert(cell, place)?;
        Ok(())
    }

    // The place that was noted for the cell.
    fn place_of(&self, cell: Cell) -> Option<u32>
        ensures { result ≡ place_in ⟦<Cell as Ord>⟧.cmp self.now cell }
    {
        self.by_cell.get(&cell).copied()
    }
}

/// The source of a cell, if it is known to be there.
pub fn find_cell(list: &CellList, places: &Places, cell: Cell) -> Option<Src>
    ensures { IfSome result (λ src. IsCell list.now src cell) }
{
    let place = places.place_of(cell)?;
    match list.cells.as_slice().get(place as usize) {
        Some(found) if is_same_cell(*found, cell) => Some(Src::Cell(place)),
        _ => None,
    }
}

/// The source of a cell, which is added if it is not known to be there.
pub fn share(
    list: &mut CellList,
    places: &mut Places,
    alloc: Global,
    cell: Cell,
) -> Result<Src, CellError>
    requires { IsTrue (reads_there list.old.inputs (length list.old.starts)
        (length list.old.cells) cell) }
    ensures value { IfOk result (λ src.
        Answers list.old list.new 1 (reads_one cell ≡ true) src (λ inputs state.
        cell_bit inputs state (cell_bits inputs state list.old.cells) cell)) }
    ensures cell { IfOk result (λ src. IsCell list.new src cell) }
{
    match find_cell(list, places, cell) {
        Some(src) => Ok(src),
        None => add(list, places, alloc, cell),
    }
}
