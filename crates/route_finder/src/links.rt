// Wires are followed from port to port. A wire ends at another cell than that at which it begins, so a lone cell splits
// a ring, which leads back to its port.

use crate::ends::end_at;
use crate::error::{DrawingFault, FindError};
use crate::lone::add_lone;
use crate::wires::{Link, Links, Way, state_at};
use gate_library::{DrawnPort, GatePort};
use route_lines::{Board, Owner, STEPS, port_cell, small};
use ww_rule::{Pattern, State};

// Adds the wire between two ports whose cells are those of the path from one place to another.
fn add_link(
    links: &mut Links,
    board: &Board,
    from: DrawnPort,
    to: DrawnPort,
    start: usize,
    end: usize,
) {
    let link = Link {
        from: end_at(board, from),
        to: end_at(board, to),
        start: small(start),
        size: small(end.saturating_sub(start)),
        way: Way::Unknown,
    };
    links.is_short |= links.all.push(link).is_err();
}

// The place and the cell of the first conductor of a ring, which is a path from a place on, that has a cell before it
// and one after it.
fn splitting_cell(
    pattern: &Pattern,
    path: &[(u32, u32)],
    start: usize,
) -> Option<(usize, (u32, u32))> {
    for place in start.saturating_add(1)..path.len().saturating_sub(1) {
        if let State::Conductor = state_at(pattern, path[place]) {
            return Some((place, path[place]));
        }
    }
    None
}

// Adds the ring whose cells are those of the path from a place on. The cell that splits it becomes a lone cell, between
// two wires.
fn add_ring(
    links: &mut Links,
    board: &mut Board,
    pattern: &Pattern,
    port: DrawnPort,
    start: usize,
) {
    let end = board.path.len();
    match splitting_cell(pattern, &board.path, start) {
        Some((place, cell)) => {
            let lone = DrawnPort {
                gate: small(board.gates.len()),
                port: GatePort::In(0),
            };
            add_lone(board, cell);
            add_link(links, board, port, lone, start, place);
            add_link(links, board, lone, port, place.saturating_add(1), end);
        }
        None => add_link(links, board, port, port, start, end),
    }
}

// Follows a wire from the cell of a port, by its first cell.
fn follow(
    links: &mut Links,
    board: &mut Board,
    pattern: &Pattern,
    from: DrawnPort,
    cell: (u32, u32),
    first: (u32, u32),
) {
    let start = board.path.len();
    let last = board.trace(cell, first);
    if last == cell {
        add_ring(links, board, pattern, from, start);
    } else if let Some(to) = board.port_at(last) {
        let end = board.path.len();
        add_link(links, board, from, to, start, end);
    } else {
        let fault = match board.owners.of(last) {
            Owner::Inner => DrawingFault::Gate,
            _ => DrawingFault::Wire,
        };
        links.note(Some(FindError::at(fault, last)));
    }
}

// Follows the wires from a port.
fn follow_from(links: &mut Links, board: &mut Board, pattern: &Pattern, port: DrawnPort) {
    if let Some(cell) = port_cell(&board.library, &board.gates, port) {
        for step in STEPS {
            let first = step.from(cell);
            if let Owner::Open = board.owners.of(first) {
                follow(links, board, pattern, port, cell, first);
            }
        }
    }
}

/// Follows the wires from the inputs and the outputs of all gates from a number on. A gate has at most four of each.
pub fn follow_wires(links: &mut Links, board: &mut Board, pattern: &Pattern, first: u32) {
    let ports = small(board.gates.len()).saturating_mul(8);
    for place in first.saturating_mul(8)..ports {
        let (gate, number) = (place / 8, place % 8);
        let port = if number < 4 {
            GatePort::In(number)
        } else {
            GatePort::Out(number - 4)
        };
        follow_from(links, board, pattern, DrawnPort { gate, port });
    }
}

/// Follows the rings at which there is no gate: a conductor of each becomes a lone cell.
pub fn follow_rings(links: &mut Links, board: &mut Board, pattern: &Pattern) {
    for number in 0..board.owners.count() {
        let cell = board.owners.cell(number);
        let cells = (board.owners.of(cell), state_at(pattern, cell));
        if let (Owner::Open, State::Conductor) = cells {
            let gate = small(board.gates.len());
            add_lone(board, cell);
            follow_wires(links, board, pattern, gate);
        }
    }
}
