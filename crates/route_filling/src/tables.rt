// Tables of a drawing.
ghost use Rattle.std.specs.Prelude.{◌≡◌, None};
ghost use Rattle.route_filling.specs.Ends.{FitsCells};

use crate::feeding::FedPorts;
use crate::gates::{GateRows, at_gate, small};
use crate::listing::{Listing, add_nets};
use crate::lists_of::{Ends, fit, list_of};
use crate::solving::{solve, unsolved};
use cell_core::{Cell, CellList};
use gate_library::{Drawing, DrawnPort};
use lists::{List, OutOfMemory};
use route_tables::{CellFault, FaultWord, Tables};
use std::alloc::Global;

// What is found of a drawing.
#[derive(Drop)]
struct Filling {
    gates: GateRows,
    fed: FedPorts,
    cells: Vec<Cell>,
    listing: Listing,
    ends: Ends,
    outs: Vec<DrawnPort>,
    nets: Vec<DrawnPort>,
}

impl Filling {
    fn new(alloc: Global) -> Filling {
        Filling {
            gates: GateRows::new(alloc),
            fed: FedPorts::new(alloc),
            cells: Vec::new(alloc),
            listing: Listing::new(alloc),
            ends: Ends::new(alloc),
            outs: Vec::new(alloc),
            nets: Vec::new(alloc),
        }
    }

    // Finds all that the tables of a drawing have, in a box of so many columns and cells; returns whether memory ran
    // out.
    fn fill(&mut self, alloc: Global, drawing: &Drawing, width: u32, size: usize) -> bool {
        let Filling {
            gates,
            fed,
            cells,
            listing,
            ends,
            outs,
            nets,
        } = self;
        let mut is_short = gates.fill(alloc, drawing.gates.as_slice());
        is_short |= fed.fill(&gates.rows, drawing);
        is_short |= solve(cells, alloc, gates, &mut fed.ports, &fed.next, drawing);
        is_short |= listing.fill(alloc, gates, &fed.ports, drawing, width, size);
        is_short |= outs.extend_from_slice(drawing.outs.as_slice()).is_err();
        is_short |= add_nets(nets, drawing.nets.as_slice());
        is_short | ends.fill(&gates.rows, &fed.ports, drawing, nets)
    }

    // The first fault of what was found.
    fn fault(&self, drawing: &Drawing, inputs: u32) -> Option<CellFault>
        ensures { result ≡ None → FitsCells inputs self.now.cells.items self.now.ends }
    {
        if let Some(gate) = self.gates.unlawful() {
            return Some(at_gate(drawing, gate, FaultWord::Kind));
        }
        if self.fed.fault.is_some() {
            return self.fed.fault;
        }
        if let Some(gate) = unsolved(&self.fed.ports) {
            return Some(at_gate(drawing, gate, FaultWord::Order));
        }
        if !fit(&self.ends, inputs as usize, &self.cells) {
            return Some(at_gate(drawing, 0, FaultWord::Order));
        }
        None
    }

    // Makes the tables of what was found.
    fn into_tables(self, width: u32, inputs: u32) -> Tables
        requires { FitsCells inputs self.cells.items self.ends }
    {
        let Filling {
            gates,
            fed,
            cells,
            listing,
            ends,
            outs,
            nets,
        } = self;
        Tables {
            width,
            kinds: List::of(gates.kinds),
            gates: List::of(listing.gates),
            wires: List::of(listing.wires),
            driven: List::of(fed.driven),
            cells: List::of(listing.cells),
            groups: List::of(listing.groups),
            serials: List::of(listing.serials),
            list: list_of(inputs, cells, ends),
            outs: List::of(outs),
            nets: List::of(nets),
        }
    }
}

/// Fills the tables of a drawing in a box of `width` columns and `size` cells. Of a drawing that is
/// no routed circuit the tables may be wrong, or a fault is told that shows while they are filled.
pub fn tables_of(
    alloc: Global,
    drawing: &Drawing,
    width: u32,
    size: usize,
) -> Result<Result<Tables, CellFault>, OutOfMemory> {
    let inputs = small(drawing.ins.len());
    let mut filling = Filling::new(alloc);
    if filling.fill(alloc, drawing, width, size) {
        drop(filling);
        return Err(OutOfMemory::NoMemory);
    }
    match filling.fault(drawing, inputs) {
        Some(fault) => {
            drop(filling);
            Ok(Err(fault))
        }
        None => Ok(Ok(filling.into_tables(width, inputs))),
    }
}

/// Returns the list of tables that are done with.
pub fn list_in(tables: Tables) -> CellList
    ensures { result ≡ tables.list }
{
    tables.list
}
