// Reading the lines of gates and wires.

use crate::board::{Board, Wiring, small};
use crate::comments::first_line;
use crate::owners::Owner;
use crate::words::{step_named, word};
use gate_library::{Drawing, DrawnGate, DrawnPort, DrawnWire, GatePort, kind_named};
use lists::OutOfMemory;
use pattern_lines::number_in;
use pattern_reading::Ports;
use std::alloc::Global;
use ww_rule::Pattern;

// The number that a word of a line is.
fn number(line: &[u8], place: usize) -> Option<u32> {
    u32::try_from(number_in(word(line, place))?).ok()
}

// The cell that two words of a line are.
fn cell(line: &[u8], place: usize) -> Option<(u32, u32)> {
    match (number(line, place), number(line, place.saturating_add(1))) {
        (Some(x), Some(y)) => Some((x, y)),
        _ => None,
    }
}

// Whether a line has no more than so many words, and no space at its end.
fn ends_at(line: &[u8], words: usize) -> bool {
    word(line, words).is_empty() && !line.ends_with(b" ")
}

// The number at the end of the line of a gate, or 0 if nothing stands there.
fn later(line: &[u8]) -> Option<u32> {
    if ends_at(line, 4) {
        Some(0)
    } else if ends_at(line, 5) {
        number(line, 4)
    } else {
        None
    }
}

// Adds the gate of a line.
fn read_gate(board: &mut Board, line: &[u8]) {
    let Some(line) = line.strip_prefix(b"#C gate ") else {
        return;
    };
    let (Some(kind), Some((x, y)), Some(first), Some(later)) = (
        kind_named(word(line, 0)),
        cell(line, 1),
        number(line, 3),
        later(line),
    ) else {
        return;
    };
    board.add_gate(DrawnGate {
        kind,
        x,
        y,
        first,
        later,
    });
}

// Whether bytes are start bits.
fn are_bits(bytes: &[u8]) -> bool {
    for byte in bytes {
        if !matches!(byte, b'0' | b'1') {
            return false;
        }
    }
    true
}

// The start bits at the end of the line of a wire, where `-` stands for none.
fn start_bits(line: &[u8]) -> Option<&[u8]> {
    let bits = word(line, 5);
    if !ends_at(line, 6) {
        return None;
    }
    match bits {
        [] => None,
        [b'-'] => Some(&[]),
        _ => { if are_bits(bits) { Some(bits) } else { None } }
    }
}

// Adds a wire, and the start bits that a line has for it.
fn add_wire(wiring: &mut Wiring, wire: DrawnWire, starts: &[u8]) {
    wiring.is_short |= wiring.wires.push(wire).is_err();
    for i in (0..starts.len()).rev() {
        wiring.is_short |= wiring.starts.push(starts[i] == b'1').is_err();
    }
}

// Follows a wire by its first cell, and adds it if it leads from a port to that at the cell `end`.
fn follow(
    board: &mut Board,
    wiring: &mut Wiring,
    begin: (u32, u32),
    first: (u32, u32),
    end: (u32, u32),
    starts: &[u8],
) {
    let (Some(from), Owner::Open) = (board.port_at(begin), board.owners.of(first)) else {
        return;
    };
    let start = board.path.len();
    let last = board.trace(begin, first);
    let Some(DrawnPort { gate, port }) = board.port_at(last) else {
        return;
    };
    if let (GatePort::In(input), true) = (port, last == end) {
        let wire = DrawnWire {
            from,
            gate,
            input,
            start: small(start),
            size: small(board.path.len().saturating_sub(start)),
            latch: small(wiring.starts.len()),
            cycles: small(starts.len()),
        };
        add_wire(wiring, wire, starts);
    }
}

// Adds the wire of a line.
fn read_wire(board: &mut Board, wiring: &mut Wiring, line: &[u8]) {
    let Some(line) = line.strip_prefix(b"#C wire ") else {
        return;
    };
    if let (Some(begin), Some(step), Some(end), Some(starts)) = (
        cell(line, 0),
        step_named(word(line, 2)),
        cell(line, 3),
        start_bits(line),
    ) {
        follow(board, wiring, begin, step.from(begin), end, starts);
    }
}

// Reads the gates of a text's lines, or its wires.
fn read_lines(board: &mut Board, wiring: &mut Wiring, text: &[u8], of_wires: bool) {
    let mut rest = text;
    for _ in 0..text.len() {
        if rest.is_empty() {
            break;
        }
        let (line, lines) = first_line(rest).unwrap_or((rest, &[]));
        if of_wires {
            read_wire(board, wiring, line);
        } else {
            read_gate(board, line);
        }
        rest = lines;
    }
}

// Reads gates and wires, and answers whether a gate is named, and each input and each output of the port table is at a
// port.
fn read_onto(board: &mut Board, wiring: &mut Wiring, text: &[u8]) -> bool {
    read_lines(board, wiring, text, false);
    if board.gates.is_empty() {
        return false;
    }
    read_lines(board, wiring, text, true);
    wiring.add_ports(board)
}

/// Reads the gates and the wires that a pattern's text names in comments (`gate_lines` has their forms), as a hint:
/// each wire is followed on the pattern. A line of another form, and a wire that does not lead to its end, is passed
/// over.
/// `None` if no gate is named, if an input or an output of the port table is at no port of a gate, or if a side of the
/// box, the period or the latency is 2^32 or more.
pub fn read(
    alloc: Global,
    text: &[u8],
    pattern: &Pattern,
    ports: &Ports,
) -> Result<Option<Drawing>, OutOfMemory> {
    let Some(mut board) = Board::new(alloc, pattern, ports)? else {
        return Ok(None);
    };
    let mut wiring = Wiring::of(alloc, ports);
    let is_named = read_onto(&mut board, &mut wiring, text);
    board.into_drawing(wiring, is_named)
}
