// What is left of the drawing: wires with their start bits, and gates with their times.

use crate::crossings::{is_mirrored, mirrored, port_after};
use crate::error::{DrawingFault, FindError};
use crate::times::Times;
use crate::wires::{Link, Links, state_at};
use gate_library::{DrawnGate, DrawnWire, GatePort, Timing};
use route_lines::{Board, Wiring, part_of, small};
use ww_rule::{Pattern, State};

fn generation(number: i64) -> u32 {
    u32::try_from(number).unwrap_or(0)
}

// How many periods long a wire is.
fn periods_of(times: &Times, link: &Link) -> u32 {
    let arrival = times
        .generation(link.from.time)
        .saturating_add(link.shift());
    let length = arrival.saturating_sub(times.generation(link.to.time));
    let period = i64::from(times.period);
    let periods = length.checked_div(period).unwrap_or(0);
    generation(periods).min(link.size)
}

// Adds the start bits of a wire of these cells, which is so many periods long, the last latch's last: whether a head is
// as far before the wire's end as the electron that arrives there after the periods left.
fn add_starts(
    wiring: &mut Wiring,
    times: &Times,
    pattern: &Pattern,
    cells: &[(u32, u32)],
    link: &Link,
    cycles: u32,
) {
    let end = times
        .generation(link.to.time)
        .saturating_add(i64::from(link.to.after));
    for latch in 1..=cycles {
        let wait = cycles.saturating_sub(latch).saturating_mul(times.period);
        let distance = generation(end).saturating_add(wait);
        let place = cells.len().wrapping_sub(distance as usize);
        let is_head = place < cells.len() && matches!(state_at(pattern, cells[place]), State::Head);
        wiring.is_short |= wiring.starts.push(is_head).is_err();
    }
}

/// Adds all wires up to the first that leads to no input, and returns the fault of that.
pub fn add_wires(
    wiring: &mut Wiring,
    board: &Board,
    pattern: &Pattern,
    links: &Links,
    times: &Times,
) -> Option<FindError> {
    for link in &links.all {
        let cells = part_of(&board.path, link.start, link.size);
        let GatePort::In(input) = port_after(times, &board.gates, link.to.port).port else {
            let first = if cells.is_empty() { (0, 0) } else { cells[0] };
            return Some(FindError::at(DrawingFault::Wire, first));
        };
        let wire = DrawnWire {
            from: port_after(times, &board.gates, link.from.port),
            gate: link.to.port.gate,
            input,
            start: link.start,
            size: link.size,
            latch: small(wiring.starts.len()),
            cycles: periods_of(times, link),
        };
        wiring.is_short |= wiring.wires.push(wire).is_err();
        add_starts(wiring, times, pattern, cells, link, wire.cycles);
    }
    None
}

// A gate with this number and its times; it is mirrored if it is such a crossing.
fn timed(times: &Times, board: &Board, gate: DrawnGate, number: u32) -> DrawnGate {
    let mut gate = gate;
    let time = number.saturating_mul(2);
    let (first, second) = (
        times.generation(time),
        times.generation(time.saturating_add(1)),
    );
    gate.first = generation(first);
    if is_mirrored(times, &board.gates, number) {
        gate.kind.turn = mirrored(gate.kind.turn);
        gate.first = generation(second);
        gate.later = generation(first.saturating_sub(second));
    } else if matches!(board.library.drawing(gate.kind).timing, Timing::Apart) {
        gate.later = generation(second.saturating_sub(first));
    }
    gate
}

/// Sets the times of all gates, and mirrors crossings.
pub fn time_gates(board: &mut Board, times: &Times) {
    for place in 0..board.gates.len() {
        if place < board.gates.len() {
            let number = small(place);
            let gate = timed(times, board, board.gates[place], number);
            board.put_gate(gate, number);
        }
    }
}
