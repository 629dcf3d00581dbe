// Lists of cells that a test writes down.
ghost use Rattle.std.specs.Prelude.{◌≡◌, ◌<◌, ◌+◌, IsTrue, IfSome, length};
ghost use Rattle.cell_core.specs.Sources.{are_in_order, are_there};
ghost use Rattle.cell_plans.specs.PlanOf.{IsPlannable};

use cell_core::{Cell, CellList, Src};
use lists::List;
use std::alloc::Global;

/// A list of cells as a test writes it down. `latches` are the sources of the latches, and `starts`
/// the bits with which the latches start, in the same order.
#[derive(Clone, Copy)]
pub struct Written<'a> {
    pub inputs: u32,
    pub cells: &'a [Cell],
    pub outs: &'a [Src],
    pub latches: &'a [Src],
    pub starts: &'a [bool],
    pub nets: &'a [Src],
}

// Whether each of the cells reads only what is there before it.
fn are_in_order(cells: &[Cell], inputs: usize, latches: usize) -> bool
    ensures { result ≡ are_in_order inputs latches 0 cells.now }
{
    for (made, cell) in cells.iter().enumerate() {
        if !cell.reads_there(inputs, latches, made) {
            return false;
        }
    }
    true
}

/// Returns whether each of the sources is there.
pub fn are_there(sources: &[Src], inputs: usize, latches: usize, cells: usize) -> bool
    ensures { result ≡ are_there inputs latches cells sources.now }
{
    for (i, src) in sources.iter().enumerate() {
        if !src.is_there(inputs, latches, cells) {
            return false;
        }
    }
    true
}

/// The parts of which a list of cells is made.
#[derive(Drop)]
pub struct Parts {
    pub inputs: u32,
    pub cells: Vec<Cell>,
    pub outs: Vec<Src>,
    pub latches: Vec<Src>,
    pub starts: Vec<bool>,
    pub nets: Vec<Src>,
}

/// Returns the parts of a list with these inputs and nothing else.
pub fn no_parts(alloc: Global, inputs: u32) -> Parts {
    Parts {
        inputs,
        cells: Vec::new(alloc),
        outs: Vec::new(alloc),
        latches: Vec::new(alloc),
        starts: Vec::new(alloc),
        nets: Vec::new(alloc),
    }
}

// Whether the sources are all there, and the list is a small one: fewer than 1,000 inputs,
// latches, outputs and cells each.
fn make_a_list(parts: &Parts) -> bool
    ensures order { IsTrue result → IsTrue (are_in_order parts.now.inputs
        (length parts.now.starts.items) 0 parts.now.cells.items) }
    ensures outs { IsTrue result → IsTrue (are_there parts.now.inputs (length parts.now.starts.items)
        (length parts.now.cells.items) parts.now.outs.items) }
    ensures latches { IsTrue result → IsTrue (are_there parts.now.inputs
        (length parts.now.starts.items) (length parts.now.cells.items) parts.now.latches.items) }
    ensures nets { IsTrue result → IsTrue (are_there parts.now.inputs (length parts.now.starts.items)
        (length parts.now.cells.items) parts.now.nets.items) }
    ensures starts { IsTrue result → length parts.now.starts.items ≡ length parts.now.latches.items }
    ensures small { IsTrue result → parts.now.inputs + length parts.now.starts.items +
        length parts.now.outs.items + length parts.now.cells.items < 4000 }
{
    let inputs = parts.inputs as usize;
    let (latches, cells) = (parts.starts.len(), parts.cells.len());
    let order = are_in_order(&parts.cells, inputs, latches);
    let outs_there = are_there(&parts.outs, inputs, latches, cells);
    let latches_there = are_there(&parts.latches, inputs, latches, cells);
    let nets_there = are_there(&parts.nets, inputs, latches, cells);
    let fit = latches == parts.latches.len();
    let few = parts.inputs < 1000 && latches < 1000 && parts.outs.len() < 1000 && cells < 1000;
    order && outs_there && latches_there && nets_there && fit && few
}

/// Makes the list of these parts, if they make one and it is small.
pub fn list_in(parts: Parts) -> Option<CellList>
    ensures { IfSome result IsPlannable }
{
    if !make_a_list(&parts) {
        drop(parts);
        return None;
    }
    Some(CellList {
        inputs: parts.inputs,
        cells: List::of(parts.cells),
        outs: List::of(parts.outs),
        latches: List::of(parts.latches),
        starts: List::of(parts.starts),
        nets: List::of(parts.nets),
    })
}

// Appends copies of items, and returns whether memory ran out. The items' type is open here, so that the clauses of the
// call cost little.
fn add<T: Copy>(items: &mut Vec<T>, more: &[T]) -> bool {
    items.extend_from_slice(more).is_err()
}

// Appends what is written down to empty parts, and returns whether memory ran out.
fn fill(parts: &mut Parts, written: &Written<'_>) -> bool {
    add(&mut parts.cells, written.cells)
        | add(&mut parts.outs, written.outs)
        | add(&mut parts.latches, written.latches)
        | add(&mut parts.starts, written.starts)
        | add(&mut parts.nets, written.nets)
}

/// Makes the list that is written down, if it is one and small, and if memory is enough.
pub fn list_of(alloc: Global, written: &Written<'_>) -> Option<CellList>
    ensures { IfSome result IsPlannable }
{
    let mut parts = no_parts(alloc, written.inputs);
    if fill(&mut parts, written) {
        drop(parts);
        return None;
    }
    list_in(parts)
}
