// The ports of all gates, and what feeds their inputs.

use crate::gates::{GateRow, at_gate, port_number, small};
use cell_core::Src;
use gate_library::{Drawing, DrawnPort, DrawnWire, GatePort};
use route_tables::{CellFault, FaultWord, Feed, GateInput};
use std::alloc::Global;

/// A port with what feeds it, if it is an input, the source of its bits, and the first wire that begins there, as far
/// as these are known.
#[derive(Clone, Copy)]
pub struct PortRow {
    pub at: DrawnPort,
    pub feed: Option<Feed>,
    pub source: Option<Src>,
    pub wire: Option<u32>,
}

/// The ports of all gates, for each wire the next one that begins at its port, and the inputs that are driven, by the
/// numbers of their drives. `fault` is the first fault that was found.
#[derive(Drop)]
pub struct FedPorts {
    pub ports: Vec<PortRow>,
    pub next: Vec<Option<u32>>,
    pub driven: Vec<GateInput>,
    pub fault: Option<CellFault>,
}

/// Returns the number of the port at which a wire ends.
pub fn end_of(rows: &[GateRow], wire: &DrawnWire) -> usize {
    let port = GatePort::In(wire.input);
    port_number(
        rows,
        DrawnPort {
            gate: wire.gate,
            port,
        },
    )
}

/// Returns the source of a wire's last latch, if it has latches.
pub fn last_latch(wire: &DrawnWire) -> Option<Src> {
    if wire.cycles > 0 {
        Some(Src::Latch(wire.latch.saturating_add(wire.cycles - 1)))
    } else {
        None
    }
}

// Feeds an input, by the number of its port, if it is there and not fed yet; returns whether it did.
fn feed(ports: &mut [PortRow], number: usize, by: Feed) -> bool {
    if number >= ports.len() || ports[number].feed.is_some() {
        return false;
    }
    ports[number].feed = Some(by);
    true
}

// Adds the ports of the gate with this number; returns whether memory ran out.
fn add_ports(ports: &mut Vec<PortRow>, gate: u32, row: &GateRow) -> bool {
    for number in row.ins..row.end {
        let port = if number < row.outs {
            GatePort::In(small(number.saturating_sub(row.ins)))
        } else {
            GatePort::Out(small(number.saturating_sub(row.outs)))
        };
        let unknown = PortRow {
            at: DrawnPort { gate, port },
            feed: None,
            source: None,
            wire: None,
        };
        if ports.push(unknown).is_err() {
            return true;
        }
    }
    false
}

// Adds the ports of all gates; returns whether memory ran out.
fn add_all_ports(ports: &mut Vec<PortRow>, rows: &[GateRow]) -> bool {
    let mut gate = 0u32;
    for row in rows {
        if add_ports(ports, gate, row) {
            return true;
        }
        gate = gate.saturating_add(1);
    }
    false
}

// Puts the wire with this number first among those that begin at a port.
fn put_first(ports: &mut [PortRow], next: &mut [Option<u32>], number: usize, wire: u32) {
    if number < ports.len() && (wire as usize) < next.len() {
        next[wire as usize] = ports[number].wire;
        ports[number].wire = Some(wire);
    }
}

// Has all wires begin at their ports, and feed the inputs at their ends. The first wire whose input is not there, or is
// fed already, is at fault.
fn feed_by_wires(
    ports: &mut [PortRow],
    next: &mut [Option<u32>],
    rows: &[GateRow],
    drawing: &Drawing,
) -> Option<CellFault> {
    let mut number = 0u32;
    for wire in drawing.wires.as_slice() {
        put_first(ports, next, port_number(rows, wire.from), number);
        if !feed(ports, end_of(rows, wire), Feed::Wire(number)) {
            return Some(at_gate(drawing, wire.gate, FaultWord::Fed));
        }
        number = number.saturating_add(1);
    }
    None
}

// Drives the circuit's inputs; of a lone cell, whose output is its input, the input. The first one that is not there,
// or is fed already, is at fault.
fn drive_inputs(ports: &mut [PortRow], rows: &[GateRow], drawing: &Drawing) -> Option<CellFault> {
    let mut drive = 0u32;
    for at in drawing.ins.as_slice() {
        let mut input = *at;
        if let GatePort::Out(_) = at.port {
            input.port = GatePort::In(0);
        }
        if !feed(ports, port_number(rows, input), Feed::Driven(drive)) {
            return Some(at_gate(drawing, at.gate, FaultWord::Port));
        }
        drive = drive.saturating_add(1);
    }
    None
}

// Drives the inputs that nothing feeds, by the drives from this number on; returns the number of all drives.
fn drive_others(ports: &mut [PortRow], first: u32) -> u32 {
    let mut drive = first;
    for number in 0..ports.len() {
        if let GatePort::In(_) = ports[number].at.port {
            if feed(ports, number, Feed::Driven(drive)) {
                drive = drive.saturating_add(1);
            }
        }
    }
    drive
}

// Puts the driven inputs where the numbers of their drives say.
fn put_driven(driven: &mut [GateInput], ports: &[PortRow]) {
    for port in ports {
        let DrawnPort { gate, port: at } = port.at;
        if let (Some(Feed::Driven(drive)), GatePort::In(input)) = (port.feed, at) {
            if (drive as usize) < driven.len() {
                driven[drive as usize] = GateInput { gate, input };
            }
        }
    }
}

impl FedPorts {
    /// Returns the ports of no gates.
    pub fn new(alloc: Global) -> FedPorts {
        FedPorts {
            ports: Vec::new(alloc),
            next: Vec::new(alloc),
            driven: Vec::new(alloc),
            fault: None,
        }
    }

    /// Adds the ports of a drawing's gates, and feeds all inputs: by wires, and the others by drives. Returns whether
    /// memory ran out.
    pub fn fill(&mut self, rows: &[GateRow], drawing: &Drawing) -> bool {
        let next = self.next.resize(drawing.wires.len(), None).is_err();
        let ports = add_all_ports(&mut self.ports, rows);
        let wires = feed_by_wires(&mut self.ports, &mut self.next, rows, drawing);
        let inputs = drive_inputs(&mut self.ports, rows, drawing);
        self.fault = wires.or(inputs);
        let drives = drive_others(&mut self.ports, small(drawing.ins.len()));
        let undriven = GateInput { gate: 0, input: 0 };
        let driven = self.driven.resize(drives as usize, undriven).is_err();
        put_driven(&mut self.driven, &self.ports);
        next | ports | driven
    }
}
