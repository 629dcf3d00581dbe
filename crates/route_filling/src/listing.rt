// The gates and wires of the tables, and their cells, listed.

use crate::feeding::PortRow;
use crate::gates::{GateRow, GateRows, small};
use cell_core::Src;
use gate_library::{Drawing, DrawnGate, DrawnPort, DrawnWire, GateDrawing};
use lists::List;
use route_tables::{Feed, GateInput, TableGate, TableWire};
use std::alloc::Global;
use ww_rule::State;

/// All cells, gate by gate and then wire by wire, whose each is, and the wires; the gates; and for each cell of a box
/// the number of the listed cell that is there, counted from 1, or 0.
#[derive(Drop)]
pub struct Listing {
    pub cells: Vec<(u32, u32)>,
    pub groups: Vec<u32>,
    pub wires: Vec<TableWire>,
    pub gates: Vec<TableGate>,
    pub serials: Vec<u32>,
}

/// Returns the items of a row from a place to another one, or none if they are not all there.
pub fn part<T>(items: &[T], begin: usize, end: usize) -> &[T] {
    if begin <= end && end <= items.len() {
        &items[begin..end]
    } else {
        &[]
    }
}

// Lists the cells of a gate; returns whether memory ran out.
fn add_cells(cells: &mut Vec<(u32, u32)>, gate: &DrawnGate, drawing: &GateDrawing) -> bool {
    let (mut x, mut y) = (0u32, 0u32);
    for state in drawing.cells.as_slice() {
        if let State::Conductor = state {
            let cell = (gate.x.saturating_add(x), gate.y.saturating_add(y));
            if cells.push(cell).is_err() {
                return true;
            }
        }
        x = x.saturating_add(1);
        if x >= drawing.width {
            (x, y) = (0, y.saturating_add(1));
        }
    }
    false
}

// Lists the cells of all gates; returns whether memory ran out.
fn list_gates(
    cells: &mut Vec<(u32, u32)>,
    groups: &mut Vec<u32>,
    gates: &GateRows,
    drawn: &[DrawnGate],
) -> bool {
    for number in 0..drawn.len() {
        if let Some(drawing) = gates.drawing_of(number) {
            if add_cells(cells, &drawn[number], drawing) {
                return true;
            }
        }
        if groups.resize(cells.len(), small(number)).is_err() {
            return true;
        }
    }
    false
}

// Adds a wire, and lists its cells, which are of this group; returns whether memory ran out.
fn add_wire(
    cells: &mut Vec<(u32, u32)>,
    groups: &mut Vec<u32>,
    wires: &mut Vec<TableWire>,
    path: &[(u32, u32)],
    wire: &DrawnWire,
    group: u32,
) -> bool {
    let row = TableWire {
        start: small(cells.len()),
        size: wire.size,
        from: wire.from,
        to: GateInput {
            gate: wire.gate,
            input: wire.input,
        },
        cycles: wire.cycles,
    };
    let (begin, size) = (wire.start as usize, wire.size as usize);
    let own = part(path, begin, begin.saturating_add(size));
    cells.extend_from_slice(own).is_err()
        | groups.resize(cells.len(), group).is_err()
        | wires.push(row).is_err()
}

// Adds all wires, whose groups come after those of the gates; returns whether memory ran out.
fn add_wires(
    cells: &mut Vec<(u32, u32)>,
    groups: &mut Vec<u32>,
    wires: &mut Vec<TableWire>,
    drawing: &Drawing,
) -> bool {
    let mut group = small(drawing.gates.len());
    for wire in drawing.wires.as_slice() {
        if add_wire(cells, groups, wires, drawing.path.as_slice(), wire, group) {
            return true;
        }
        group = group.saturating_add(1);
    }
    false
}

// Numbers the listed cells in a box of so many columns. Of two at one place the last one counts.
fn put_serials(serials: &mut [u32], cells: &[(u32, u32)], width: u32) {
    let mut serial = 0u32;
    for cell in cells {
        serial = serial.saturating_add(1);
        let at = (cell.1 as usize)
            .saturating_mul(width as usize)
            .saturating_add(cell.0 as usize);
        if cell.0 < width && at < serials.len() {
            serials[at] = serial;
        }
    }
}

impl Listing {
    /// Returns the listing of no gates and no wires.
    pub fn new(alloc: Global) -> Listing {
        Listing {
            cells: Vec::new(alloc),
            groups: Vec::new(alloc),
            wires: Vec::new(alloc),
            gates: Vec::new(alloc),
            serials: Vec::new(alloc),
        }
    }

    /// Lists a drawing's gates, with the sources of their ports, and its wires, and the cells of both, in a box of so
    /// many columns and cells. Returns whether memory ran out.
    pub fn fill(
        &mut self,
        alloc: Global,
        gates: &GateRows,
        ports: &[PortRow],
        drawing: &Drawing,
        width: u32,
        size: usize,
    ) -> bool {
        let Listing {
            cells,
            groups,
            wires,
            gates: table,
            serials,
        } = self;
        let drawn = drawing.gates.as_slice();
        let is_short = add_gates(table, alloc, drawn, &gates.rows, ports)
            | list_gates(cells, groups, gates, drawn)
            | add_wires(cells, groups, wires, drawing)
            | serials.resize(size, 0).is_err();
        put_serials(serials, cells, width);
        is_short
    }
}

// Adds the sources of ports, constant 0 for those that are not known, and what feeds them, if they are inputs that are
// fed; returns whether memory ran out.
fn add_sources(sources: &mut Vec<Src>, feeds: &mut Vec<Feed>, ports: &[PortRow]) -> bool {
    for port in ports {
        if sources.push(port.source.unwrap_or(Src::Zero)).is_err() {
            return true;
        }
        if let Some(feed) = port.feed {
            if feeds.push(feed).is_err() {
                return true;
            }
        }
    }
    false
}

// Adds a gate with the sources of its ports, and with what feeds its inputs; returns whether memory ran out.
fn add_gate(
    table: &mut Vec<TableGate>,
    alloc: Global,
    gate: &DrawnGate,
    row: &GateRow,
    ports: &[PortRow],
) -> bool {
    let (mut ins, mut outs) = (Vec::new(alloc), Vec::new(alloc));
    let mut feeds = Vec::new(alloc);
    let mut is_short = add_sources(&mut ins, &mut feeds, part(ports, row.ins, row.outs));
    is_short |= add_sources(&mut outs, &mut feeds, part(ports, row.outs, row.end));
    let gate = TableGate {
        kind: row.kind,
        x: gate.x,
        y: gate.y,
        first: gate.first,
        later: gate.later,
        ins: List::of(ins),
        outs: List::of(outs),
        feeds: List::of(feeds),
    };
    is_short | table.push(gate).is_err()
}

// Adds all gates; returns whether memory ran out.
fn add_gates(
    table: &mut Vec<TableGate>,
    alloc: Global,
    gates: &[DrawnGate],
    rows: &[GateRow],
    ports: &[PortRow],
) -> bool {
    for number in 0..gates.len() {
        if number < rows.len() && add_gate(table, alloc, &gates[number], &rows[number], ports) {
            return true;
        }
    }
    false
}

/// Adds the ports of nets that are drawn; returns whether memory ran out.
pub fn add_nets(ports: &mut Vec<DrawnPort>, nets: &[Option<DrawnPort>]) -> bool {
    for net in nets {
        if let Some(port) = net {
            if ports.push(*port).is_err() {
                return true;
            }
        }
    }
    false
}
