// Lists of cells whose ports, latches and nets are tested to be there.
ghost use Rattle.std.specs.Prelude.{◌≡◌, IsTrue};
ghost use Rattle.cell_core.specs.Sources.{are_in_order, are_there};
ghost use Rattle.route_filling.specs.Ends.{FitsCells};

use crate::feeding::PortRow;
use crate::gates::GateRow;
use crate::solving::source_of;
use cell_core::{Cell, CellList, Src};
use gate_library::{Drawing, DrawnPort, DrawnWire};
use lists::List;
use std::alloc::Global;

/// The sources of a list's outputs and nets, and of its latches' data, and the latches' start bits.
#[derive(Drop)]
pub struct Ends {
    pub outs: Vec<Src>,
    pub nets: Vec<Src>,
    pub latches: Vec<Src>,
    pub starts: Vec<bool>,
}

// Has the first latch of a wire read this source, and each other one the latch before it.
fn put_latches(latches: &mut [Src], wire: &DrawnWire, source: Src) {
    let mut reads = source;
    for i in 0..wire.cycles {
        let latch = wire.latch.saturating_add(i);
        if (latch as usize) < latches.len() {
            latches[latch as usize] = reads;
        }
        reads = Src::Latch(latch);
    }
}

// Adds the sources at named ports; returns whether memory ran out.
fn add_sources_at(
    sources: &mut Vec<Src>,
    rows: &[GateRow],
    ports: &[PortRow],
    named: &[DrawnPort],
) -> bool {
    for at in named {
        if sources.push(source_of(rows, ports, *at)).is_err() {
            return true;
        }
    }
    false
}

// Has the latches of all wires read what they should.
fn put_all_latches(latches: &mut [Src], rows: &[GateRow], ports: &[PortRow], wires: &[DrawnWire]) {
    for wire in wires {
        put_latches(latches, wire, source_of(rows, ports, wire.from));
    }
}

impl Ends {
    /// Returns the ends of a list with no ports and no latches.
    pub fn new(alloc: Global) -> Ends {
        Ends {
            outs: Vec::new(alloc),
            nets: Vec::new(alloc),
            latches: Vec::new(alloc),
            starts: Vec::new(alloc),
        }
    }

    /// Adds the ends of a drawing, of which these are the nets' ports; returns whether memory ran out.
    pub fn fill(
        &mut self,
        rows: &[GateRow],
        ports: &[PortRow],
        drawing: &Drawing,
        nets: &[DrawnPort],
    ) -> bool {
        let starts = drawing.starts.as_slice();
        let outs = add_sources_at(&mut self.outs, rows, ports, drawing.outs.as_slice());
        let nets = add_sources_at(&mut self.nets, rows, ports, nets);
        let bits = self.starts.extend_from_slice(starts).is_err();
        let latches = self.latches.resize(starts.len(), Src::Zero).is_err();
        put_all_latches(&mut self.latches, rows, ports, drawing.wires.as_slice());
        outs | nets | bits | latches
    }
}

// Whether each of the cells reads only what is there before it.
fn are_in_order(cells: &[Cell], inputs: usize, latches: usize) -> bool
    ensures { result ≡ are_in_order inputs latches 0 cells.now }
{
    for (made, cell) in cells.iter().enumerate() {
        if !cell.reads_there(inputs, latches, made) {
            return false;
        }
    }
    true
}

// Whether each of the sources is there.
fn are_there(sources: &[Src], inputs: usize, latches: usize, cells: usize) -> bool
    ensures { result ≡ are_there inputs latches cells sources.now }
{
    for (i, src) in sources.iter().enumerate() {
        if !src.is_there(inputs, latches, cells) {
            return false;
        }
    }
    true
}

/// Returns whether cells and ends read what is there, and each latch has a start bit.
pub fn fit(ends: &Ends, inputs: usize, cells: &[Cell]) -> bool
    ensures { IsTrue result → FitsCells inputs cells.now ends.now }
{
    let (latches, made) = (ends.starts.len(), cells.len());
    if latches != ends.latches.len() {
        return false;
    }
    if !are_in_order(cells, inputs, latches) {
        return false;
    }
    if !are_there(&ends.outs, inputs, latches, made) {
        return false;
    }
    if !are_there(&ends.nets, inputs, latches, made) {
        return false;
    }
    are_there(&ends.latches, inputs, latches, made)
}

/// Returns the list with these inputs, cells and ends.
pub fn list_of(inputs: u32, cells: Vec<Cell>, ends: Ends) -> CellList
    requires { FitsCells inputs cells.items ends }
{
    CellList {
        inputs,
        cells: List::of(cells),
        outs: List::of(ends.outs),
        latches: List::of(ends.latches),
        starts: List::of(ends.starts),
        nets: List::of(ends.nets),
    }
}
