// Writing the lines of gates and wires.

use crate::board::part_of;
use crate::ports::port_cell;
use crate::words::step_between;
use gate_library::{
    Drawing, DrawnGate, DrawnPort, DrawnWire, GateLibrary, GatePort, letter_of, word_of,
};
use itoa::Buffer;
use lists::{Bytes, List, OutOfMemory};
use std::alloc::Global;

// Lines that are written. It is noted whether memory ran out.
#[derive(Drop)]
struct Lines {
    text: Vec<u8>,
    is_short: bool,
}

impl Lines {
    fn add(&mut self, bytes: &[u8]) {
        self.is_short |= self.text.extend_from_slice(bytes).is_err();
    }

    fn add_number(&mut self, number: u32) {
        let mut buffer = Buffer::new();
        self.add(b" ");
        self.add(buffer.format(number).as_bytes());
    }

    fn add_cell(&mut self, cell: (u32, u32)) {
        self.add_number(cell.0);
        self.add_number(cell.1);
    }

    fn add_gates(&mut self, gates: &[DrawnGate]) {
        for gate in gates {
            self.add(b"#C gate ");
            self.add(word_of(gate.kind.shape));
            self.add(b"-");
            self.add(&[letter_of(gate.kind.turn)]);
            self.add_cell((gate.x, gate.y));
            self.add_number(gate.first);
            if gate.later > 0 {
                self.add_number(gate.later);
            }
            self.add(b"\n");
        }
    }

    // Adds the start bits of a wire, that which arrives first at its end before the others.
    fn add_starts(&mut self, starts: &[bool]) {
        self.add(b" ");
        if starts.is_empty() {
            self.add(b"-");
        }
        for i in (0..starts.len()).rev() {
            self.add(if starts[i] { b"1" } else { b"0" });
        }
        self.add(b"\n");
    }

    // Adds a wire between ports at these cells, unless its first cell is not beside that at which it begins.
    fn add_wire(
        &mut self,
        drawing: &Drawing,
        wire: &DrawnWire,
        begin: (u32, u32),
        end: (u32, u32),
    ) {
        let (path, start) = (drawing.path.as_slice(), wire.start as usize);
        if start >= path.len() {
            return;
        }
        if let Some(step) = step_between(begin, path[start]) {
            self.add(b"#C wire");
            self.add_cell(begin);
            self.add(b" ");
            self.add(step.word());
            self.add_cell(end);
            let starts = drawing.starts.as_slice();
            self.add_starts(part_of(starts, wire.latch, wire.cycles));
        }
    }
}

// Adds all wires. One that begins or ends at no port is not written.
fn add_wires(lines: &mut Lines, library: &GateLibrary, drawing: &Drawing) {
    let gates = drawing.gates.as_slice();
    for wire in drawing.wires.as_slice() {
        let to = DrawnPort {
            gate: wire.gate,
            port: GatePort::In(wire.input),
        };
        if let (Some(begin), Some(end)) = (
            port_cell(library, gates, wire.from),
            port_cell(library, gates, to),
        ) {
            lines.add_wire(drawing, wire, begin, end);
        }
    }
}

/// Writes a line for each gate of a drawing, and then one for each wire:
///
/// ```text
/// #C gate KIND x y first later
/// #C wire x y STEP u v STARTS
/// ```
///
/// `later` is left out if it is 0. A wire leads from a port's cell, by a step (`N`, `NE` .. `NW`), to an input's
/// (u, v).
/// STARTS has a bit for each period that the wire is long, in order of arrival, or is `-`.
pub fn gate_lines(alloc: Global, drawing: &Drawing) -> Result<Bytes, OutOfMemory> {
    let library = GateLibrary::new(alloc)?;
    let mut lines = Lines {
        text: Vec::new(alloc),
        is_short: false,
    };
    lines.add_gates(drawing.gates.as_slice());
    add_wires(&mut lines, &library, drawing);
    drop(library);
    let Lines { text, is_short } = lines;
    if is_short {
        drop(text);
        return Err(OutOfMemory::NoMemory);
    }
    Ok(List::of(text))
}
