// Which wires are at each gate, and wires that lead nowhere.

use crate::ends::end_at;
use crate::error::{DrawingFault, FindError};
use crate::times::nearest_head;
use crate::ways::{feed, open};
use crate::wires::{Input, Link, Links, Use, Way};
use gate_library::{DrawnGate, Shape};
use route_lines::{Board, LineKind, TableCell, part_of};
use ww_rule::Pattern;

/// Notes at which gates the cells of the port table are, and which inputs it drives. The first input or output that is
/// at no port of a gate is at fault.
pub fn note_table(links: &mut Links, board: &Board, table: &[TableCell]) {
    links.make_room(board.gates.len());
    for line in table {
        if let Some(port) = board.port_at(line.cell) {
            let place = port.gate as usize;
            if place < links.uses.len() {
                links.uses[place].count = links.uses[place].count.saturating_add(1);
            }
            if let LineKind::In = line.kind {
                feed(links.inputs.as_mut_slice(), end_at(board, port).input);
            }
        } else if !matches!(line.kind, LineKind::Net) {
            links.note(Some(FindError::at(DrawingFault::Port, line.cell)));
        }
    }
}

// Puts a wire before the others at a gate, and returns the number of the first of them.
fn put_first(uses: &mut [Use], gate: u32, number: u32) -> u32 {
    let place = gate as usize;
    if place >= uses.len() {
        return u32::MAX;
    }
    let Use { link, count } = uses[place];
    uses[place] = Use {
        link: number,
        count: count.saturating_add(1),
    };
    link
}

/// Chains the wires at each gate, those that were found last first, and notes what they tell of the inputs at their
/// ends.
pub fn chain_links(links: &mut [Link], uses: &mut [Use], inputs: &mut [Input]) {
    let mut number = 0u32;
    for link in links.iter_mut() {
        let (from, to) = (link.from.port.gate, link.to.port.gate);
        link.from.next = put_first(uses, from, number);
        link.to.next = if from == to {
            link.from.next
        } else {
            put_first(uses, to, number)
        };
        match link.way {
            Way::Unknown => {
                open(inputs, link.from.input);
                open(inputs, link.to.input);
            }
            _ => feed(inputs, link.to.input),
        }
        number = number.saturating_add(1);
    }
}

// The cell of a gate at one end of a wire, if the wire is alone there and the port table does not name the cell.
fn loose_end(uses: &[Use], gates: &[DrawnGate], link: &Link, gate: u32) -> Option<(u32, u32)> {
    let place = gate as usize;
    if place >= uses.len() || place >= gates.len() {
        return None;
    }
    let gate = gates[place];
    let is_alone = uses[place].count == 1 && link.from.port.gate != link.to.port.gate;
    if is_alone && matches!(gate.kind.shape, Shape::Lone) {
        Some((gate.x, gate.y))
    } else {
        None
    }
}

/// Returns the fault of the first wire that leads to a cell, or with no electrons from one, at which it is alone and
/// which is no cell of the port table.
pub fn fault_of_ends(links: &Links, board: &Board, pattern: &Pattern) -> Option<FindError> {
    for link in &links.all {
        if let Some(cell) = loose_end(&links.uses, &board.gates, link, link.to.port.gate) {
            return Some(FindError::at(DrawingFault::Wire, cell));
        }
        if let Some(cell) = loose_end(&links.uses, &board.gates, link, link.from.port.gate) {
            if nearest_head(pattern, part_of(&board.path, link.start, link.size)).is_none() {
                return Some(FindError::at(DrawingFault::Wire, cell));
            }
        }
    }
    None
}
