// The sources of all ports, found from the circuit's inputs and latches on.

use crate::feeding::{PortRow, end_of, last_latch};
use crate::gates::{GateRow, GateRows, port_number, small};
use crate::listing::part;
use cell_core::{Cell, Src};
use gate_library::{Answer, Drawing, DrawnPort, DrawnWire, GatePort};
use route_tables::Feed;
use std::alloc::Global;

/// A port, by its number, whose source is known.
#[derive(Clone, Copy)]
struct Known {
    port: usize,
    source: Src,
}

// The source with which an input begins, if it is driven or at the end of a wire with latches.
fn first_source(feed: Feed, drawing: &Drawing) -> Option<Src> {
    match feed {
        Feed::Driven(d) if (d as usize) < drawing.ins.len() => Some(Src::Input(d)),
        Feed::Driven(_) => Some(Src::Zero),
        Feed::Wire(w) => match drawing.wires.as_slice().get(w as usize) {
            Some(wire) => last_latch(wire),
            None => None,
        },
    }
}

// The two inputs of an answer, which are one if it is a copy.
fn inputs_of(answer: Answer) -> (u32, u32) {
    match answer {
        Answer::Copy(i) => (i, i),
        Answer::Or(i, j) | Answer::Xor(i, j) | Answer::AndNot(i, j) => (i, j),
    }
}

// The cell that is an answer to two sources; none for a copy.
fn cell_of(answer: Answer, a: Src, b: Src) -> Option<Cell> {
    match answer {
        Answer::Copy(_) => None,
        Answer::Or(_, _) => Some(Cell::Or(a, b)),
        Answer::Xor(_, _) => Some(Cell::Xor(a, b)),
        Answer::AndNot(_, _) => Some(Cell::AndNot(a, b)),
    }
}

// The source of the port with this number, if it is known.
fn source_at(ports: &[PortRow], number: u32) -> Option<Src> {
    if (number as usize) < ports.len() {
        ports[number as usize].source
    } else {
        None
    }
}

// Begins at the inputs that are driven, and at those at the ends of wires with latches; returns whether memory ran out.
fn begin(waiting: &mut Vec<Known>, ports: &[PortRow], drawing: &Drawing) -> bool {
    for port in 0..ports.len() {
        if let Some(feed) = ports[port].feed {
            if let Some(source) = first_source(feed, drawing) {
                if waiting.push(Known { port, source }).is_err() {
                    return true;
                }
            }
        }
    }
    false
}

// Leads a source along the wires that begin at its port, of which this is the first. A wire with latches ends it.
// Returns whether memory ran out.
fn lead(
    waiting: &mut Vec<Known>,
    wires: &[DrawnWire],
    next: &[Option<u32>],
    rows: &[GateRow],
    first: Option<u32>,
    source: Src,
) -> bool {
    let mut at = first;
    for _ in 0..wires.len() {
        let Some(number) = at else {
            break;
        };
        let number = number as usize;
        if number >= wires.len() || number >= next.len() {
            break;
        }
        let port = end_of(rows, &wires[number]);
        if wires[number].cycles == 0 && waiting.push(Known { port, source }).is_err() {
            return true;
        }
        at = next[number];
    }
    false
}

// Makes known what answers inputs at a port, if the given one is the last of them that became known; returns whether
// memory ran out.
fn answer_port(
    cells: &mut Vec<Cell>,
    waiting: &mut Vec<Known>,
    ins: &[PortRow],
    input: u32,
    answer: Answer,
    port: usize,
) -> bool {
    let (i, j) = inputs_of(answer);
    if i != input && j != input {
        return false;
    }
    let (Some(a), Some(b)) = (source_at(ins, i), source_at(ins, j)) else {
        return false;
    };
    let Some(cell) = cell_of(answer, a, b) else {
        return waiting.push(Known { port, source: a }).is_err();
    };
    let source = Src::Cell(small(cells.len()));
    cells.push(cell).is_err() | waiting.push(Known { port, source }).is_err()
}

// Answers what can be answered of a gate, of which this input became known; returns whether memory ran out.
fn answer_gate(
    cells: &mut Vec<Cell>,
    waiting: &mut Vec<Known>,
    gates: &GateRows,
    ports: &[PortRow],
    gate: u32,
    input: u32,
) -> bool {
    let number = gate as usize;
    let Some(drawing) = gates.drawing_of(number) else {
        return false;
    };
    if number >= gates.rows.len() {
        return false;
    }
    let row = gates.rows[number];
    let ins = part(ports, row.ins, row.outs);
    let mut port = row.outs;
    for answer in drawing.answers.as_slice() {
        if answer_port(cells, waiting, ins, input, *answer, port) {
            return true;
        }
        port = port.saturating_add(1);
    }
    false
}

/// Finds the sources of all ports that can be known, and the cells that they are of; returns whether memory ran out.
pub fn solve(
    cells: &mut Vec<Cell>,
    alloc: Global,
    gates: &GateRows,
    ports: &mut [PortRow],
    next: &[Option<u32>],
    drawing: &Drawing,
) -> bool {
    let mut waiting = Vec::new(alloc);
    let mut is_short = begin(&mut waiting, ports, drawing);
    let wires = drawing.wires.as_slice();
    for _ in 0..ports.len() {
        let Some(Known { port, source }) = waiting.pop() else {
            break;
        };
        if port < ports.len() {
            ports[port].source = Some(source);
            let PortRow { at, wire, .. } = ports[port];
            is_short |= lead(&mut waiting, wires, next, &gates.rows, wire, source);
            if let GatePort::In(input) = at.port {
                is_short |= answer_gate(cells, &mut waiting, gates, ports, at.gate, input);
            }
        }
    }
    is_short
}

/// Returns a gate of which an input has no source, if there is one: then gates read each other in a circle.
pub fn unsolved(ports: &[PortRow]) -> Option<u32> {
    for port in ports {
        if port.feed.is_some() && port.source.is_none() {
            return Some(port.at.gate);
        }
    }
    None
}

/// Returns the source of a port, or constant 0 if none is known.
pub fn source_of(rows: &[GateRow], ports: &[PortRow], at: DrawnPort) -> Src {
    let number = port_number(rows, at);
    if number < ports.len() {
        ports[number].source.unwrap_or(Src::Zero)
    } else {
        Src::Zero
    }
}
