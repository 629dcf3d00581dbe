// A list of cells in another order.
ghost use Rattle.std.specs.Prelude.{IfOk, IfSome};
ghost use Rattle.cell_order.specs.Alike.{ComputeAlike};
ghost use Rattle.cell_order.specs.Renamed.{AreRenamed};

use crate::ReorderError;
use crate::moving::Moved;
use cell_core::CellList;
use lists::List;
use std::alloc::Global;

// The list with the cells that have come, if these are as many as before and have all that its
// ports and nets read.
fn with_moved(
    alloc: Global,
    list: &CellList,
    moved: Moved,
) -> Result<Option<CellList>, ReorderError>
    requires { AreRenamed list.now moved.cells.items moved.numbers.items }
    ensures { IfOk result (λ new. IfSome new (ComputeAlike list.now)) }
{
    if moved.cells.len() != list.cells.len() {
        return Ok(None);
    }
    let starts = list.starts.as_slice().to_vec(alloc)?;
    let Some(ends) = moved.ends(alloc, list)? else {
        return Ok(None);
    };
    let new = CellList {
        inputs: list.inputs,
        cells: List::of(moved.cells),
        outs: List::of(ends.outs),
        latches: List::of(ends.latches),
        starts: List::of(starts),
        nets: List::of(ends.nets),
    };
    if new.names_one() != list.names_one() {
        return Ok(None);
    }
    Ok(Some(new))
}

/// Returns the list with its cells in `order`, which gives their numbers. It skips a number of no
/// cell, and a cell that comes before one that it reads. It returns `None` if then the cells are
/// not as many as the list's, or a port or net reads one that is missing.
pub fn in_order(
    alloc: Global,
    list: &CellList,
    order: &[u32],
) -> Result<Option<CellList>, ReorderError>
    ensures { IfOk result (λ new. IfSome new (ComputeAlike list.now)) }
{
    let mut moved = Moved::begin(alloc, list)?;
    for number in order {
        moved.add(list, *number)?;
    }
    with_moved(alloc, list, moved)
}
