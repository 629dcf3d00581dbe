// Copies of lists of cells with other outputs and nets.
ghost use Rattle.std.specs.Prelude.{◌≡◌, length, IfOk, IfSome};
ghost use Rattle.cell_core.specs.Sources.{are_there};
ghost use Rattle.routed_plans.specs.Wanted.{IsCopyWith};

use cell_core::{CellList, Src};
use lists::{List, OutOfMemory};
use std::alloc::Global;

// Whether each of the sources is there.
fn are_there(list: &CellList, sources: &[Src]) -> bool
    ensures { result ≡ are_there list.now.inputs (length list.now.starts)
        (length list.now.cells) sources.now }
{
    let (inputs, latches, cells) = (list.inputs as usize, list.starts.len(), list.cells.len());
    sources
        .iter()
        .all(|source| source.is_there(inputs, latches, cells))
}

/// Copies a list of cells with these outputs and nets in place of its own, if they are all there.
pub fn copy_with(
    alloc: Global,
    list: &CellList,
    outs: Vec<Src>,
    nets: Vec<Src>,
) -> Result<Option<CellList>, OutOfMemory>
    ensures { IfOk result (λ o. IfSome o (IsCopyWith list.now outs.items nets.items)) }
{
    if !are_there(list, &outs) || !are_there(list, &nets) {
        return Ok(None);
    }
    let cells = list.cells.as_slice().to_vec(alloc)?;
    let latches = list.latches.as_slice().to_vec(alloc)?;
    let starts = list.starts.as_slice().to_vec(alloc)?;
    Ok(Some(CellList {
        inputs: list.inputs,
        cells: List::of(cells),
        outs: List::of(outs),
        latches: List::of(latches),
        starts: List::of(starts),
        nets: List::of(nets),
    }))
}
