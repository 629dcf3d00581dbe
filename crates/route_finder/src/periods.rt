// How many whole periods after its time modulo the period each gate begins: as few as the outputs and nets ask for.

use crate::ends::end_at;
use crate::times::Times;
use crate::wires::Links;
use route_lines::{Board, LineKind, TableCell};
use std::alloc::Global;
use std::collections::BinaryHeap;

// The times that were raised, with their generations.
type Raised = BinaryHeap<(i64, u32)>;

// A time is raised by no more periods.
const MOST_PERIODS: i64 = 4294967295;

// Lets a time be no earlier than a generation, as far as whole periods go.
fn raise(times: &mut Times, todo: &mut Raised, number: u32, least: i64) {
    let (time, period) = (times.generation(number), i64::from(times.period));
    let periods = least.saturating_sub(time).checked_div(period).unwrap_or(0);
    let place = number as usize;
    if periods > 0 && periods <= MOST_PERIODS && place < times.all.len() {
        let raised = time.saturating_add(periods.saturating_mul(period));
        times.all[place] = Some(raised);
        times.is_short |= todo.push((raised, number)).is_err();
    }
}

// The outputs and nets of the table are lit at their generations.
fn begin_at_table(times: &mut Times, todo: &mut Raised, board: &Board, table: &[TableCell]) {
    for line in table {
        let port = board.port_at(line.cell);
        if let (LineKind::Out | LineKind::Net, Some(port)) = (line.kind, port) {
            let end = end_at(board, port);
            let generation = i64::try_from(line.generation).unwrap_or(i64::MAX);
            let least = generation.saturating_sub(i64::from(end.after));
            raise(times, todo, end.time, least);
        }
    }
}

// The wires to a gate are no less than 0 periods long.
fn spread(times: &mut Times, todo: &mut Raised, links: &Links, time: u32) {
    let (gate, generation) = (time / 2, times.generation(time));
    let mut number = links.first_at(gate);
    for _ in 0..links.all.len() {
        let place = number as usize;
        if place >= links.all.len() {
            break;
        }
        let link = links.all[place];
        if link.to.time == time {
            let least = generation.saturating_sub(link.shift());
            raise(times, todo, link.from.time, least);
        }
        number = link.next_at(gate);
    }
}

/// Finds the periods of all times.
pub fn find_periods(
    alloc: Global,
    times: &mut Times,
    links: &Links,
    board: &Board,
    table: &[TableCell],
) {
    let mut todo = BinaryHeap::new(alloc);
    begin_at_table(times, &mut todo, board, table);
    for _ in 0..times.all.len().saturating_add(links.all.len()) {
        let Some((_, time)) = todo.pop() else {
            break;
        };
        spread(times, &mut todo, links, time);
    }
    drop(todo);
}
