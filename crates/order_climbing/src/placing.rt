// How many columns the placer takes for an order of the cells: the placer's own steps, without
// their instructions. States of the accepted draft are kept, so that a changed draft is placed
// from its first change on alone.
use crate::lanes::{Lanes, State};
use cell_core::CellError;
use order_drafts::{Draft, Gate, Gates};
use std::alloc::Global;
use std::mem;
use std::ops::Range;

// About how many states are kept for a list, and between how few and how many gates.
const STATES: usize = 40;

const FEWEST_BETWEEN: usize = 2;

const MOST_BETWEEN: usize = 16;

// How many columns a draft may fall behind the accepted one's pace before it is given up, besides
// those that it may have more.
const SLACK: usize = 2;

// What a gate costs besides the lanes that it passes, in lanes.
const GATE: usize = 24;

/// What a draft has changed of the accepted one.
#[derive(Clone, Copy)]
pub enum Change {
    /// The number of lanes, or all.
    Lanes,
    /// The lanes of inputs.
    Inputs,
    /// The order, up to a place.
    Order(usize, usize),
}

// What a kept place tells of a draft.
#[derive(Clone, Copy)]
enum Outlook {
    Open,
    // from here on the draft is the accepted one
    Same,
    // it is too far behind
    Hopeless,
}

/// A placer of some gates, which each call is passed; it takes memory once. The numbers on its
/// `Lanes` are those of the values, then of the ports, then of the two operands.
#[derive(Drop)]
pub struct Placer {
    lanes: Lanes,
    first: usize,
    second: usize,
    // so many gates stand between kept states
    between: usize,
    // the states of the accepted draft
    kept: Vec<State>,
    // those of the draft that was placed last, and which of them it has
    tried: Vec<State>,
    own: Range<usize>,
    // the columns of the accepted draft, and of the one that was placed last
    columns: usize,
    found: usize,
    /// What was placed so far, in lanes passed.
    pub work: usize,
}

impl Placer {
    /// Returns a placer that has placed nothing.
    pub fn new(alloc: Global, gates: &Gates) -> Result<Placer, CellError> {
        let first = gates.uses.len().saturating_add(gates.ports.len());
        let second = first.saturating_add(1);
        let between = (gates.gates.len() / STATES).clamp(FEWEST_BETWEEN, MOST_BETWEEN);
        let states = gates.gates.len().div_ceil(between.max(1));
        Ok(Placer {
            lanes: Lanes::new(alloc, second.saturating_add(1))?,
            first,
            second,
            between,
            kept: no_states(alloc, states)?,
            tried: no_states(alloc, states)?,
            own: 0..0,
            columns: 0,
            found: 0,
            work: 0,
        })
    }

    /// Returns how many tiles the drawing of a draft has, or `None` if these are more than `most`
    /// or the lanes are not enough. It gives up if the draft falls behind the accepted one's pace.
    pub fn tiles(
        &mut self,
        gates: &Gates,
        draft: &Draft,
        change: Change,
        most: u64,
    ) -> Result<Option<u64>, CellError> {
        let lanes = draft.homes.lanes;
        let Some(columns) = self.place(gates, draft, change, gates.most_columns(most, lanes))?
        else {
            return Ok(None);
        };
        let tiles = gates.tiles(columns, lanes);
        if tiles > most {
            return Ok(None);
        }
        Ok(Some(tiles))
    }

    /// Accepts the draft that was placed last.
    pub fn accept(&mut self) {
        for number in self.own.start..self.own.end {
            exchange(&mut self.kept, &mut self.tried, number);
        }
        self.own = 0..0;
        self.columns = self.found;
    }

    /// Counts so many gates as placed on so many lanes.
    pub fn count(&mut self, gates: usize, lanes: usize) {
        let cost = gates.saturating_mul(lanes.saturating_add(GATE));
        self.work = self.work.saturating_add(cost);
    }

    // Places a draft; how many columns it takes, or `None` if it is given up.
    fn place(
        &mut self,
        gates: &Gates,
        draft: &Draft,
        change: Change,
        most: usize,
    ) -> Result<Option<usize>, CellError> {
        let start = self.begin(gates, draft, change)?;
        self.own = start..start;
        for number in start..self.tried.len() {
            let latest = self.lanes.columns();
            match self.outlook(number, latest, change, most) {
                Outlook::Open => {}
                Outlook::Same => {
                    self.found = self.columns;
                    return Ok(Some(self.found));
                }
                Outlook::Hopeless => return Ok(None),
            }
            self.keep(number, latest)?;
            if self.place_gates(gates, draft, number).is_none() {
                return Ok(None);
            }
        }
        self.finish(gates, draft.homes.lanes)
    }

    // Puts the lanes into the last kept state before a change. Returns its number.
    fn begin(&mut self, gates: &Gates, draft: &Draft, change: Change) -> Result<usize, CellError> {
        if let Change::Order(first, _) = change {
            let number = first / self.between.max(1);
            if let Some(kept) = self.kept.get(number) {
                self.lanes.return_to(kept)?;
                return Ok(number);
            }
        }
        self.start_all(gates, draft)?;
        Ok(0)
    }

    // Whether placing goes on at a place where states are kept, from which on the lanes are idle at
    // column `latest`.
    fn outlook(&self, number: usize, latest: usize, change: Change, most: usize) -> Outlook {
        if latest > most {
            return Outlook::Hopeless;
        }
        let (Some(kept), Some(changed)) = (self.kept.get(number), last_change(change)) else {
            return Outlook::Open;
        };
        if number.saturating_mul(self.between) <= changed {
            return Outlook::Open;
        }
        if self.lanes.are_in(kept) {
            return Outlook::Same;
        }
        let behind = latest.saturating_add(self.columns);
        if behind > most.saturating_add(SLACK).saturating_add(kept.latest) {
            Outlook::Hopeless
        } else {
            Outlook::Open
        }
    }

    // Keeps a state of the draft that is placed.
    fn keep(&mut self, number: usize, latest: usize) -> Result<(), CellError> {
        if let Some(tried) = self.tried.get_mut(number) {
            self.lanes.keep(tried, latest)?;
        }
        self.own.end = number.saturating_add(1);
        Ok(())
    }

    // Sets the lanes as they are at the start, with constant 0 on the dark lane.
    fn start_all(&mut self, gates: &Gates, draft: &Draft) -> Result<(), CellError> {
        self.lanes.clear(draft.homes.lanes)?;
        self.start_inputs(gates, &draft.homes.ins);
        self.start_loops(gates, draft.homes.lanes);
        if let Some(lane) = draft.homes.dark_lane() {
            self.start(gates, gates.zero(), lane);
        }
        Ok(())
    }

    // Puts the inputs on these lanes.
    fn start_inputs(&mut self, gates: &Gates, lanes: &[usize]) {
        for (input, lane) in lanes.iter().enumerate() {
            self.start(gates, input, *lane);
        }
    }

    // Puts the loops on the lowest of so many lanes.
    fn start_loops(&mut self, gates: &Gates, lanes: usize) {
        let above = gates.above(lanes);
        for number in 0..gates.loops {
            let value = gates.inputs.saturating_add(number);
            self.start(gates, value, above.saturating_add(number));
        }
    }

    // Puts a value on a lane, if it is used.
    fn start(&mut self, gates: &Gates, value: usize, lane: usize) {
        if gates.uses_of(value) > 0 {
            self.lanes.put(lane, value);
        }
    }

    // Places the gates from a kept state to the next.
    fn place_gates(&mut self, gates: &Gates, draft: &Draft, number: usize) -> Option<()> {
        let start = number.saturating_mul(self.between);
        let end = start.saturating_add(self.between).min(draft.order.len());
        for place in start..end {
            self.place_gate(gates, draft, draft.order[place])?;
        }
        self.count(end.saturating_sub(start), draft.homes.lanes);
        Some(())
    }

    // Places a cell.
    fn place_gate(&mut self, gates: &Gates, draft: &Draft, cell: usize) -> Option<()> {
        let gate = *gates.gates.get(cell)?;
        let partner = self.lanes.place(gate.second);
        let is_last = gate.first != gate.second && draft.reads_last(cell, gate.first);
        self.fetch(gate.first, self.first, is_last, Some(partner))?;
        let partner = self.lanes.place(self.first);
        let is_last = draft.reads_last(cell, gate.second);
        self.fetch(gate.second, self.second, is_last, Some(partner))?;
        self.make(gates, gate, gates.made_by(cell));
        Some(())
    }

    // Makes a value from the two operands.
    fn make(&mut self, gates: &Gates, gate: Gate, made: usize) {
        let (x, y) = (self.lanes.place(self.first), self.lanes.place(self.second));
        let at = self.lanes.join(x.min(y), x.max(y));
        if gate.is_and_not && y < x {
            self.lanes.swap(at);
        }
        self.lanes.tick(at);
        if gates.uses_of(made) > 0 {
            self.lanes.put(at, made);
        } else {
            self.lanes.free(at);
        }
        self.lanes.free(at.saturating_add(1));
    }

    // Uses a value once: `number` takes its place on its lane at the last use, and else on a copy:
    // the one on the side of the partner's lane, and the upper one if there is no partner.
    fn fetch(
        &mut self,
        value: usize,
        number: usize,
        is_last: bool,
        partner: Option<usize>,
    ) -> Option<()> {
        let lane = self.lanes.place(value);
        if is_last {
            self.lanes.put(lane, number);
            return Some(());
        }
        let at = self.lanes.copy(lane)?;
        let next = at.saturating_add(1);
        let (own, kept) = match partner {
            Some(lane) if lane > at => (next, at),
            _ => (at, next),
        };
        self.lanes.put(own, number);
        self.lanes.put(kept, value);
        Some(())
    }

    // Uses the values of the ports on so many lanes: loops take the copy nearer to the lowest lane.
    fn place_ports(&mut self, gates: &Gates, lanes: usize) -> Option<()> {
        for port in 0..gates.ports.len() {
            let value = *gates.ports.get(port)?;
            let partner = if port < gates.loops {
                Some(lanes.saturating_sub(1))
            } else {
                None
            };
            let is_last = gates.last_port(value) == Some(port);
            self.fetch(value, port_number(gates, port), is_last, partner)?;
        }
        Some(())
    }

    // Places the ports, and brings the loops' data to the lowest lanes, the first to the lowest.
    fn finish(&mut self, gates: &Gates, lanes: usize) -> Result<Option<usize>, CellError> {
        self.count(gates.loops, lanes);
        if self.place_ports(gates, lanes).is_none() {
            return Ok(None);
        }
        let loops = port_number(gates, 0)..port_number(gates, gates.loops);
        self.lanes.settle(&loops)?;
        self.found = self.lanes.columns();
        Ok(Some(self.found))
    }
}

// The number that stands for a port.
fn port_number(gates: &Gates, port: usize) -> usize {
    gates.uses.len().saturating_add(port)
}

// The last place of the order that a change reaches, unless it may reach all of them.
fn last_change(change: Change) -> Option<usize> {
    match change {
        Change::Lanes => None,
        Change::Inputs => Some(0),
        Change::Order(_, last) => Some(last),
    }
}

// So many states of no lanes.
fn no_states(alloc: Global, count: usize) -> Result<Vec<State>, CellError> {
    let mut states = Vec::new(alloc);
    for _ in 0..count {
        states.push(State::new(alloc))?;
    }
    Ok(states)
}

// Exchanges the states with a number.
fn exchange(kept: &mut [State], tried: &mut [State], number: usize) {
    if let (Some(kept), Some(tried)) = (kept.get_mut(number), tried.get_mut(number)) {
        mem::swap(kept, tried);
    }
}
