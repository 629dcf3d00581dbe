// When each gate is lit, modulo the period.

use crate::ends::end_at;
use crate::wires::{End, Links, state_at};
use route_lines::{Board, LineKind, TableCell, part_of};
use std::alloc::Global;
use ww_rule::{Pattern, State};

/// The generations of all times, of which each gate has two, as far as they are known; and the times that were noted
/// and from which others may follow. It is noted whether memory ran out.
#[derive(Drop)]
pub struct Times {
    pub all: Vec<Option<i64>>,
    todo: Vec<u32>,
    pub period: u32,
    pub is_short: bool,
}

/// Returns how many generations before the end of a wire of these cells its nearest head is.
pub fn nearest_head(pattern: &Pattern, cells: &[(u32, u32)]) -> Option<u32> {
    for place in (0..cells.len()).rev() {
        if let State::Head = state_at(pattern, cells[place]) {
            return u32::try_from(cells.len() - place).ok();
        }
    }
    None
}

impl Times {
    /// Returns the generation of a time, which is 0 if it is not known.
    pub fn generation(&self, time: u32) -> i64 {
        let place = time as usize;
        if place < self.all.len() {
            if let Some(generation) = self.all[place] {
                return generation;
            }
        }
        0
    }

    // Notes a time that is not yet known, modulo the period.
    fn note(&mut self, number: u32, generation: i64) {
        let (place, period) = (number as usize, i64::from(self.period.max(1)));
        if place < self.all.len() && self.all[place].is_none() {
            self.all[place] = Some(generation.rem_euclid(period));
            self.is_short |= self.todo.push(number).is_err();
        }
    }

    // Notes the times at the other ends of a gate's wires.
    fn spread(&mut self, links: &Links, time: u32) {
        let (gate, generation) = (time / 2, self.generation(time));
        let mut number = links.first_at(gate);
        for _ in 0..links.all.len() {
            let place = number as usize;
            if place >= links.all.len() {
                break;
            }
            let link = links.all[place];
            if link.from.time == time {
                self.note(link.to.time, generation.saturating_add(link.shift()));
            } else if link.to.time == time {
                self.note(link.from.time, generation.saturating_sub(link.shift()));
            }
            number = link.next_at(gate);
        }
    }

    // Notes the time of an end that is lit at this generation, and all that hang on it.
    fn begin(&mut self, links: &Links, end: &End, generation: u32) {
        self.note(end.time, i64::from(generation) - i64::from(end.after));
        for _ in 0..self.all.len() {
            let Some(time) = self.todo.pop() else {
                break;
            };
            self.spread(links, time);
        }
    }

    // The inputs and the outputs are lit at the generations of the port table.
    fn begin_at_table(&mut self, links: &Links, board: &Board, table: &[TableCell]) {
        for line in table {
            let port = board.port_at(line.cell);
            if let (LineKind::In | LineKind::Out, Some(port)) = (line.kind, port) {
                let generation = u32::try_from(line.generation).unwrap_or(0);
                self.begin(links, &end_at(board, port), generation);
            }
        }
    }

    // The nearest head of each wire tells when the wire's end is lit. A gate whose time is not known after that begins
    // at generation 0.
    fn begin_at_wires(&mut self, links: &Links, path: &[(u32, u32)], pattern: &Pattern) {
        for link in &links.all {
            if let Some(distance) = nearest_head(pattern, part_of(path, link.start, link.size)) {
                self.begin(links, &link.to, distance);
            }
        }
        for link in &links.all {
            self.begin(links, &link.from, link.from.after);
        }
    }
}

/// Finds the times of gates from those of inputs, outputs and electrons. A gate on which none of these hangs begins at
/// generation 0.
pub fn find_times(
    alloc: Global,
    links: &Links,
    board: &Board,
    pattern: &Pattern,
    table: &[TableCell],
) -> Times {
    let mut times = Times {
        all: Vec::new(alloc),
        todo: Vec::new(alloc),
        period: board.period,
        is_short: false,
    };
    times.is_short |= times.all.resize(links.inputs.len(), None).is_err();
    times.begin_at_table(links, board, table);
    times.begin_at_wires(links, &board.path, pattern);
    times
}
