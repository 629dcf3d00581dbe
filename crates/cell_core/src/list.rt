// Lists of cells.
ghost use Rattle.std.specs.Prelude.{◌≡◌, IsTrue, length};
ghost use Rattle.std.specs.List.{list_any};
ghost use Rattle.cell_core.specs.Sources.{are_in_order, are_there, is_one, read_one};

use crate::{Cell, CellError, Src};
use lists::List;
use std::alloc::Global;
use std::mem;

/// A list of two-input cells. Each reads only inputs, latches, constants and earlier cells.
/// `inputs` is the number of inputs. `outs` are the sources of the outputs, `latches` those of the
/// latches' next bits, and `nets` those of the nets; `starts` are the bits with which the latches
/// begin. Each input, latch and cell that is named is there.
#[derive(Drop)]
pub struct CellList {
    pub inputs: u32,
    pub cells: List<Cell>,
    pub outs: List<Src>,
    pub latches: List<Src>,
    pub starts: List<bool>,
    pub nets: List<Src>,
    pub ghost in_order: { IsTrue (are_in_order inputs (length starts) 0 cells) },
    pub ghost outs_there: { IsTrue (are_there inputs (length starts) (length cells) outs) },
    pub ghost latches_there: { IsTrue (are_there inputs (length starts) (length cells) latches) },
    pub ghost nets_there: { IsTrue (are_there inputs (length starts) (length cells) nets) },
    pub ghost starts_fit: { length starts ≡ length latches },
}

impl CellList {
    ghost use Rattle.std.specs.Prelude.{◌∷◌, [], OnOk, OnErr};
    ghost use Rattle.cell_core.specs.Sources.{reads_there};
    ghost use Rattle.cell_core.specs.Loops.{names_one};
    ghost use Rattle.cell_core.specs.Adding.{Adds};

    /// Adds a cell, whose sources are there, at the end. If memory runs out, the list is as before.
    pub fn push(&mut self, alloc: Global, cell: Cell) -> Result<(), CellError>
        requires { IsTrue (reads_there self.old.inputs (length self.old.starts)
            (length self.old.cells) cell) }
        ensures done { OnOk result (Adds self.old self.new (cell ∷ [])) }
        ensures refused { OnErr result (Adds self.old self.new []) }
    {
        let mut cells = mem::replace(&mut self.cells, List::of(Vec::new(alloc))).into_vec();
        let pushed = cells.push(cell);
        self.cells = List::of(cells);
        match pushed {
            Ok(()) => Ok(()),
            Err(_) => Err(CellError::NoMemory),
        }
    }

    /// Returns whether the list names constant 1: whether a cell, an output, a latch or a net reads
    /// it.
    pub fn names_one(&self) -> bool
        ensures { result ≡ names_one self.now }
    {
        any_reads_one(self.cells.as_slice())
            || any_is_one(self.outs.as_slice())
            || any_is_one(self.latches.as_slice())
            || any_is_one(self.nets.as_slice())
    }
}

fn any_reads_one(cells: &[Cell]) -> bool
    ensures { result ≡ read_one cells.now }
{
    cells.iter().any(|cell| cell.reads_one())
}

fn any_is_one(sources: &[Src]) -> bool
    ensures { result ≡ list_any is_one sources.now }
{
    sources.iter().any(|src| src.is_one())
}
