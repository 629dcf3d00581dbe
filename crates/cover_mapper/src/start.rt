// Inputs and latches, before any cover is mapped.
ghost use Rattle.std.specs.Prelude.{◌≡◌, ◌==◌, ◌<◌, ◌^◌, [], length, map, IfOk};
ghost use Rattle.netlist_meaning.specs.Flat.{IsSound};
ghost use Rattle.cell_core.specs.declared.cells.Src.TheVariants.{Zero};
ghost use Rattle.cover_mapper.specs.Sourced.{AreSourced, IsAmongFirst};

use crate::MapError;
use cell_core::{CellList, Src};
use lists::List;
use netlist_core::{Flat, FlatLatch};
use netlist_meaning::class_of;
use std::alloc::Global;

// How the latches begin: with 1 if the init is 1, else with 0.
fn starts_of(alloc: Global, latches: &[FlatLatch]) -> Result<Vec<bool>, MapError>
    ensures { IfOk result (λ starts. starts.items ≡ map (λ latch. latch.init == 1) latches.now) }
{
    let mut starts = Vec::with_capacity(alloc, latches.len())?;
    for latch in latches {
        starts.push(latch.init == 1)?;
    }
    Ok(starts)
}

/// Makes a list of no cells, whose latches read constant 0 until their data are known.
pub fn start_list(alloc: Global, flat: &Flat) -> Result<CellList, MapError>
    requires { length flat.now.ins < 2 ^ 32 }
    ensures inputs { IfOk result (λ list. list.inputs ≡ length flat.now.ins) }
    ensures starts { IfOk result (λ list. list.starts ≡
        map (λ latch. latch.init == 1) flat.now.latches) }
    ensures cells { IfOk result (λ list. list.cells ≡ []) }
{
    let starts = starts_of(alloc, flat.latches.as_slice())?;
    let latches = vec![in alloc; Src::Zero; flat.latches.len()]?;
    Ok(CellList {
        inputs: flat.ins.len() as u32,
        cells: List::of(Vec::new(alloc)),
        outs: List::of(Vec::new(alloc)),
        latches: List::of(latches),
        starts: List::of(starts),
        nets: List::of(Vec::new(alloc)),
    })
}

/// Gives the classes of inputs their sources.
pub fn source_inputs(flat: &Flat, list: &CellList, sources: &mut [Option<Src>])
    requires sound { IsSound flat.now }
    requires few { length flat.now.ins < 2 ^ 32 }
    requires inputs { list.now.inputs ≡ length flat.now.ins }
    requires none { AreSourced flat.now (IsAmongFirst 0 0 []) list.now sources.old }
    ensures { AreSourced flat.now (IsAmongFirst (length flat.now.ins) 0 []) list.now sources.new }
{
    for (i, port) in flat.ins.as_slice().iter().enumerate() {
        sources[class_of(flat, port.net)] = Some(Src::Input(i as u32));
    }
}

/// Gives the classes of latches their sources.
pub fn source_latches(flat: &Flat, list: &CellList, sources: &mut [Option<Src>])
    requires sound { IsSound flat.now }
    requires few { length flat.now.latches < 2 ^ 32 }
    requires starts { length list.now.starts ≡ length flat.now.latches }
    requires inputs { AreSourced flat.now (IsAmongFirst
        (length flat.now.ins) 0 []) list.now sources.old }
    ensures { AreSourced
        flat.now (IsAmongFirst (length flat.now.ins) (length flat.now.latches) []) list.now
        sources.new }
{
    for (i, latch) in flat.latches.as_slice().iter().enumerate() {
        sources[class_of(flat, latch.output)] = Some(Src::Latch(i as u32));
    }
}
