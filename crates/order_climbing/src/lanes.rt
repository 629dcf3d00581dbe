// Lanes as the placer sees them, without instructions: what stands on each, and the column from
// which it is idle.
use cell_core::CellError;
use order_drafts::as_small;
use std::alloc::Global;
use std::ops::Range;

// More columns than any settling of loops takes.
const MOST_TURNS: usize = 1 << 20;

/// What stands on lanes: the number of a value, of a port or of an operand in hand, or `nothing`;
/// and the column from which each lane is idle.
#[derive(Drop)]
pub struct State {
    standing: Vec<u32>,
    clocks: Vec<u32>,
    /// The column from which all lanes are idle, noted when the state is kept.
    pub latest: usize,
}

impl State {
    /// Returns a state of no lanes.
    pub fn new(alloc: Global) -> State {
        State {
            standing: Vec::new(alloc),
            clocks: Vec::new(alloc),
            latest: 0,
        }
    }

    fn copy(&mut self, other: &State) -> Result<(), CellError> {
        self.standing.clear();
        self.standing.extend_from_slice(&other.standing)?;
        self.clocks.clear();
        self.clocks.extend_from_slice(&other.clocks)?;
        Ok(())
    }
}

/// Lanes in a state. Each number but `nothing` stands on at most one lane, which `places` names.
#[derive(Drop)]
pub struct Lanes {
    state: State,
    places: Vec<usize>,
    nothing: usize,
    // the lanes of loops' data, while these are brought to their own
    data: Vec<usize>,
}

/// Where two lanes come side by side: the upper one of the two, and the column after that.
#[derive(Clone, Copy)]
struct Meeting {
    at: usize,
    time: usize,
}

/// A free lane for a copy, and where the lane that is copied meets it.
#[derive(Clone, Copy)]
struct Copying {
    free: usize,
    meeting: Meeting,
}

impl Lanes {
    /// Returns an empty set of lanes, for numbers below `nothing`.
    pub fn new(alloc: Global, nothing: usize) -> Result<Lanes, CellError> {
        let places = vec![in alloc; 0; nothing.saturating_add(1)]?;
        Ok(Lanes {
            state: State::new(alloc),
            places,
            nothing,
            data: Vec::new(alloc),
        })
    }

    /// Keeps the state of the lanes, which are all idle from column `latest`.
    pub fn keep(&self, kept: &mut State, latest: usize) -> Result<(), CellError> {
        kept.latest = latest;
        kept.copy(&self.state)
    }

    /// Returns whether the lanes are in a state that was kept.
    pub fn are_in(&self, kept: &State) -> bool {
        self.state.clocks == kept.clocks && self.state.standing == kept.standing
    }

    /// Puts the lanes into a state that was kept.
    pub fn return_to(&mut self, kept: &State) -> Result<(), CellError> {
        self.state.copy(kept)?;
        for lane in 0..kept.standing.len() {
            self.note(kept.standing[lane] as usize, lane);
        }
        Ok(())
    }

    // Notes on which lane a number stands.
    fn note(&mut self, number: usize, lane: usize) {
        if let Some(place) = self.places.get_mut(number) {
            *place = lane;
        }
    }

    /// Makes all of `lanes` lanes free, and idle from the first column.
    pub fn clear(&mut self, lanes: usize) -> Result<(), CellError> {
        self.state.standing.clear();
        self.state.standing.resize(lanes, as_small(self.nothing))?;
        self.state.clocks.clear();
        self.state.clocks.resize(lanes, 0)?;
        Ok(())
    }

    /// Returns the lane of a number that stands on one.
    pub fn place(&self, number: usize) -> usize {
        self.places.get(number).copied().unwrap_or(0)
    }

    fn standing_on(&self, lane: usize) -> usize {
        match self.state.standing.get(lane) {
            Some(number) => *number as usize,
            None => self.nothing,
        }
    }

    fn clock(&self, lane: usize) -> usize {
        self.state.clocks.get(lane).copied().unwrap_or(0) as usize
    }

    fn set_clock(&mut self, lane: usize, time: usize) {
        if let Some(clock) = self.state.clocks.get_mut(lane) {
            *clock = as_small(time);
        }
    }

    /// Puts a number on a lane.
    pub fn put(&mut self, lane: usize, number: usize) {
        if let Some(standing) = self.state.standing.get_mut(lane) {
            *standing = as_small(number);
        }
        self.note(number, lane);
    }

    /// Frees a lane.
    pub fn free(&mut self, lane: usize) {
        self.put(lane, self.nothing);
    }

    /// Returns the column after the last instruction.
    pub fn columns(&self) -> usize {
        let mut latest = 0u32;
        for clock in &self.state.clocks {
            latest = latest.max(*clock);
        }
        latest as usize
    }

    /// Places an instruction on a lane and the next one, and returns the column after it.
    pub fn tick(&mut self, lane: usize) -> usize {
        let next = lane.saturating_add(1);
        let time = self.clock(lane).max(self.clock(next)).saturating_add(1);
        self.set_clock(lane, time);
        self.set_clock(next, time);
        time
    }

    /// Exchanges a lane and the next one.
    pub fn swap(&mut self, lane: usize) {
        let next = lane.saturating_add(1);
        let (upper, lower) = (self.standing_on(lane), self.standing_on(next));
        self.tick(lane);
        self.put(lane, lower);
        self.put(next, upper);
    }

    /// Brings a lane to another one; the others keep their order.
    pub fn bring(&mut self, from: usize, to: usize) {
        let number = self.standing_on(from);
        let time = if from < to {
            self.raise(from, to)
        } else {
            self.lower(to, from)
        };
        self.put(to, number);
        self.set_clock(to, time);
    }

    // Moves what stands on the lanes after the first, down to the last, up by one lane. Returns the
    // column after the last swap.
    fn raise(&mut self, first: usize, last: usize) -> usize {
        let mut time = self.clock(first);
        for lane in first..last {
            time = self.shift(lane.saturating_add(1), lane, time);
        }
        time
    }

    // Moves what stands on the lanes before the last, up to the first, down by one lane. Returns
    // the column after the last swap.
    fn lower(&mut self, first: usize, last: usize) -> usize {
        let mut time = self.clock(last);
        for lane in (first..last).rev() {
            time = self.shift(lane, lane.saturating_add(1), time);
        }
        time
    }

    // Moves what stands on lane `from` to lane `to` beside it, by one swap with a lane that is
    // brought past it, no earlier than at `time`. Returns the column after the swap.
    fn shift(&mut self, from: usize, to: usize, time: usize) -> usize {
        let time = time.max(self.clock(from)).saturating_add(1);
        self.put(to, self.standing_on(from));
        self.set_clock(to, time);
        time
    }

    // Where two lanes come side by side first: at each step the lane moves that can do so earlier.
    fn meeting(&self, upper: usize, lower: usize) -> Meeting {
        let (mut i, mut j) = (upper, lower);
        let (mut time_i, mut time_j) = (self.clock(i), self.clock(j));
        for _ in 1..lower.saturating_sub(upper) {
            let next_i = time_i.max(self.clock(i.wrapping_add(1)));
            let next_j = time_j.max(self.clock(j.wrapping_sub(1)));
            if next_i <= next_j {
                time_i = next_i.wrapping_add(1);
                i = i.wrapping_add(1);
            } else {
                time_j = next_j.wrapping_add(1);
                j = j.wrapping_sub(1);
            }
        }
        Meeting {
            at: i,
            time: time_i.max(time_j).saturating_add(1),
        }
    }

    // Brings two lanes to lane `at` and the next one.
    fn meet(&mut self, upper: usize, lower: usize, at: usize) {
        self.bring(upper, at);
        self.bring(lower, at.saturating_add(1));
    }

    /// Brings two lanes side by side, and returns the upper one of the two lanes to which they
    /// come.
    pub fn join(&mut self, upper: usize, lower: usize) -> usize {
        let at = self.meeting(upper, lower).at;
        self.meet(upper, lower, at);
        at
    }

    fn free_below(&self, lane: usize) -> Option<usize> {
        let first = lane.saturating_add(1);
        for (more, number) in self.state.standing.get(first..)?.iter().enumerate() {
            if *number as usize == self.nothing {
                return Some(first.saturating_add(more));
            }
        }
        None
    }

    fn free_above(&self, lane: usize) -> Option<usize> {
        if lane > self.state.standing.len() {
            return None;
        }
        for above in (0..lane).rev() {
            if self.state.standing[above] as usize == self.nothing {
                return Some(above);
            }
        }
        None
    }

    // A free lane, and where a lane meets it.
    fn copying(&self, lane: usize, free: usize) -> Copying {
        Copying {
            free,
            meeting: self.meeting(lane.min(free), lane.max(free)),
        }
    }

    // The free lane on which a copy is made first: one above takes a column more.
    fn first_copying(&self, lane: usize) -> Option<Copying> {
        match (self.free_below(lane), self.free_above(lane)) {
            (Some(below), Some(above)) => {
                let down = self.copying(lane, below);
                let up = self.copying(lane, above);
                if down.meeting.time > up.meeting.time.saturating_add(1) {
                    Some(up)
                } else {
                    Some(down)
                }
            }
            (Some(free), None) | (None, Some(free)) => Some(self.copying(lane, free)),
            (None, None) => None,
        }
    }

    /// Makes a second copy of what stands on a lane, on the free lane that it can meet first.
    /// Returns the upper one of the two lanes that then have it, or `None` if no lane is free.
    pub fn copy(&mut self, lane: usize) -> Option<usize> {
        let Copying { free, meeting } = self.first_copying(lane)?;
        if lane < free {
            self.meet(lane, free, meeting.at);
        } else {
            self.meet(free, lane, meeting.at);
            self.swap(meeting.at);
        }
        self.tick(meeting.at);
        Some(meeting.at)
    }

    // Which of the loops' data, whose numbers these are, stands on a lane: the greater the answer,
    // the lower its own lane; 0 is none.
    fn datum_on(&self, lane: usize, loops: &Range<usize>) -> usize {
        let number = self.standing_on(lane);
        if loops.contains(&number) {
            loops.end.saturating_sub(number)
        } else {
            0
        }
    }

    // The column from which a lane and the next one are idle, if they stand the wrong way round: a
    // loop's datum above what is none, or above one that belongs lower.
    fn wrong_from(&self, lane: usize, loops: &Range<usize>) -> Option<usize> {
        let next = lane.saturating_add(1);
        if next < self.state.standing.len()
            && self.datum_on(lane, loops) > self.datum_on(next, loops)
        {
            Some(self.clock(lane).max(self.clock(next)))
        } else {
            None
        }
    }

    // Notes the lanes on which loops' data stand, the lowest first.
    fn find_data(&mut self, loops: &Range<usize>) -> Result<(), CellError> {
        self.data.clear();
        for lane in (0..self.state.standing.len()).rev() {
            if loops.contains(&self.standing_on(lane)) {
                self.data.push(lane)?;
            }
        }
        Ok(())
    }

    // Exchanges one of the loops' data, by its lane, and what stands on the next lane. Notes its
    // next lane, or that of the other one if this is a datum too.
    fn settle_down(&mut self, datum: usize, lane: usize, loops: &Range<usize>) {
        self.swap(lane);
        let is_datum = self.datum_on(lane, loops) > 0;
        if let Some(noted) = self.data.get_mut(datum) {
            *noted = if is_datum {
                lane
            } else {
                lane.saturating_add(1)
            };
        }
    }

    // From the lowest lane up, exchanges neighbours that stand the wrong way round and are idle at
    // a column. Returns the next column at which there may be such neighbours.
    fn settle_at(&mut self, time: usize, loops: &Range<usize>) -> Option<usize> {
        let mut next = None;
        for datum in 0..self.data.len() {
            let lane = self.data.get(datum).copied().unwrap_or(0);
            match self.wrong_from(lane, loops) {
                Some(idle) if idle <= time => {
                    self.settle_down(datum, lane, loops);
                    next = Some(time.saturating_add(1));
                }
                Some(idle) => next = Some(next.unwrap_or(idle).min(idle)),
                None => {}
            }
        }
        next
    }

    /// Brings loops' data, whose numbers these are, to the lowest lanes, the first to the lowest:
    /// column by column, neighbours that stand the wrong way round are exchanged as soon as both
    /// are idle.
    pub fn settle(&mut self, loops: &Range<usize>) -> Result<(), CellError> {
        self.find_data(loops)?;
        let mut time = 0;
        for _ in 0..MOST_TURNS {
            match self.settle_at(time, loops) {
                Some(next) => time = next,
                None => return Ok(()),
            }
        }
        Ok(())
    }
}
