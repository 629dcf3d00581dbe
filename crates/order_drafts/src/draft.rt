// What a search changes: an order of the cells, the lanes of the inputs, and how many lanes there
// are.
use crate::gates::{Gate, Gates};
use crate::homes::Homes;
use crate::numbers::{as_small, push_small};
use cell_core::CellError;
use std::alloc::Global;
use std::ops::Range;

/// A draft. `order` has the numbers of the cells, each after those that it reads.
#[derive(Drop)]
pub struct Draft {
    pub order: Vec<usize>,
    // the place of each cell in the order
    places: Vec<usize>,
    // the last cell that reads each value, if no port shows the value
    last_readers: Vec<Option<usize>>,
    pub homes: Homes,
}

impl Draft {
    // Returns a draft of nothing.
    fn new(alloc: Global) -> Draft {
        Draft {
            order: Vec::new(alloc),
            places: Vec::new(alloc),
            last_readers: Vec::new(alloc),
            homes: Homes::new(alloc),
        }
    }

    /// Returns a draft of an order. Its inputs are spread over the lanes above the loops, those
    /// whose first reader comes latest at the top.
    pub fn spread(
        alloc: Global,
        gates: &Gates,
        order: &[u32],
        lanes: usize,
    ) -> Result<Draft, CellError> {
        let mut draft = Draft::new(alloc);
        draft.fill(gates, order)?;
        draft.renumber(0, order.len());
        draft.find_last_readers(gates);
        let ranked = by_first_reader(alloc, gates, &draft.order)?;
        draft.homes.spread(&ranked, lanes, gates.above(lanes))?;
        Ok(draft)
    }

    /// Makes this draft equal to another one.
    pub fn copy(&mut self, other: &Draft) -> Result<(), CellError> {
        self.order.clear();
        self.order.extend_from_slice(&other.order)?;
        self.places.clear();
        self.places.extend_from_slice(&other.places)?;
        self.last_readers.clear();
        self.last_readers.extend_from_slice(&other.last_readers)?;
        self.homes.copy(&other.homes)
    }

    /// Returns a copy of this draft.
    pub fn copied(&self, alloc: Global) -> Result<Draft, CellError> {
        let mut draft = Draft::new(alloc);
        draft.copy(self)?;
        Ok(draft)
    }

    // Sets the order, and makes room for what is noted of it.
    fn fill(&mut self, gates: &Gates, order: &[u32]) -> Result<(), CellError> {
        self.order.reserve(order.len())?;
        for cell in order {
            self.order.push(*cell as usize)?;
        }
        self.places.resize(order.len(), 0)?;
        self.last_readers.resize(gates.uses.len(), None)?;
        Ok(())
    }

    /// Adds the numbers of the cells in the draft's order, in 32 bits each.
    pub fn push_order(&self, order: &mut Vec<u32>) -> Result<(), CellError> {
        push_small(order, &self.order)
    }

    /// Adds the lanes of the inputs, and then the dark one if constant 0 needs one, in 32 bits
    /// each.
    pub fn push_lanes(&self, gates: &Gates, lanes: &mut Vec<u32>) -> Result<(), CellError> {
        push_small(lanes, &self.homes.ins)?;
        if gates.is_dark {
            lanes.push(as_small(self.homes.dark_lane().unwrap_or(0)))?;
        }
        Ok(())
    }

    /// Returns how many lanes more there are than the order's fewest.
    pub fn spare_lanes(&self, alloc: Global, gates: &Gates) -> Result<usize, CellError> {
        let fewest = gates.fewest_lanes(alloc, &self.order)?;
        Ok(self.homes.lanes.saturating_sub(fewest))
    }

    /// Returns whether the placer takes as many lanes as the draft has.
    pub fn has_room(&self, alloc: Global, gates: &Gates) -> Result<bool, CellError> {
        Ok(self.spare_lanes(alloc, gates)? <= gates.most_spare())
    }

    fn place_of(&self, cell: usize) -> usize {
        self.places.get(cell).copied().unwrap_or(0)
    }

    /// Returns whether a cell is the last to read a value, and no port shows the value.
    pub fn reads_last(&self, cell: usize, value: usize) -> bool {
        match self.last_readers.get(value) {
            Some(last) => *last == Some(cell),
            None => false,
        }
    }

    // Notes the places of the cells from one place to before another.
    fn renumber(&mut self, start: usize, end: usize) {
        for place in start..end.min(self.order.len()) {
            let Some(cell) = self.order.get(place) else {
                return;
            };
            if let Some(number) = self.places.get_mut(*cell) {
                *number = place;
            }
        }
    }

    fn find_last_readers(&mut self, gates: &Gates) {
        for value in 0..gates.uses.len() {
            self.find_last_reader(gates, value);
        }
    }

    fn find_last_reader(&mut self, gates: &Gates, value: usize) {
        let last = if gates.last_port(value).is_none() {
            self.last_of(gates.readers_of(value))
        } else {
            None
        };
        if let Some(reader) = self.last_readers.get_mut(value) {
            *reader = last;
        }
    }

    // The cell that comes last in the order.
    fn last_of(&self, cells: &[usize]) -> Option<usize> {
        let mut last = None;
        let mut latest = 0;
        for cell in cells {
            let place = self.place_of(*cell);
            if place >= latest {
                latest = place;
                last = Some(*cell);
            }
        }
        last
    }

    /// Returns the places to which the first of the cells of a block may go, all of them together:
    /// after the cells outside it that they read, and before those outside it that read them.
    pub fn range(&self, gates: &Gates, block: &Range<usize>) -> Range<usize> {
        let mut first = 0usize;
        let mut end = self.order.len();
        for place in block.start..block.end.min(self.order.len()) {
            let cell = self.order[place];
            if let Some(gate) = gates.gates.get(cell) {
                first = first.max(self.after_read(gates, *gate, block.start));
                end = end.min(self.before_reader(gates, cell, block.end));
            }
        }
        let count = block.end.saturating_sub(block.start);
        first..end.saturating_add(1).saturating_sub(count)
    }

    // The place after the later of the cells before `start` that a gate reads.
    fn after_read(&self, gates: &Gates, gate: Gate, start: usize) -> usize {
        let first = self.after_maker(gates, gate.first, start);
        first.max(self.after_maker(gates, gate.second, start))
    }

    // The place after the cell that makes a value, if that comes before `start`.
    fn after_maker(&self, gates: &Gates, value: usize, start: usize) -> usize {
        match gates.maker(value) {
            Some(cell) if self.place_of(cell) < start => self.place_of(cell).saturating_add(1),
            _ => 0,
        }
    }

    // The place of the first cell from `end` on that reads the value of a cell, or the order's end.
    fn before_reader(&self, gates: &Gates, cell: usize, end: usize) -> usize {
        let mut first = self.order.len();
        for reader in gates.readers_of(gates.made_by(cell)) {
            let place = self.place_of(*reader);
            if place >= end {
                first = first.min(place);
            }
        }
        first
    }

    /// Moves the cells of a block so that the first of them comes to place `to`. Returns the places
    /// that have changed.
    pub fn shift(&mut self, gates: &Gates, block: &Range<usize>, to: usize) -> Range<usize> {
        let count = block.end.saturating_sub(block.start);
        let start = block.start.min(to);
        let end = block.end.max(to.saturating_add(count));
        if let Some(order) = self.order.as_mut_slice().get_mut(start..end) {
            if block.start < to {
                order.rotate_left(count);
            } else {
                order.rotate_right(count);
            }
        }
        self.renumber(start, end);
        self.find_last_readers_in(gates, to..to.saturating_add(count));
        start..end
    }

    // The gate of the cell at a place.
    fn gate_at(&self, gates: &Gates, place: usize) -> Option<Gate> {
        let cell = self.order.get(place)?;
        gates.gates.get(*cell).copied()
    }

    // Finds the last readers of the values that the cells at some places read.
    fn find_last_readers_in(&mut self, gates: &Gates, places: Range<usize>) {
        for place in places.start..places.end.min(self.order.len()) {
            if let Some(gate) = self.gate_at(gates, place) {
                self.find_last_reader(gates, gate.first);
                self.find_last_reader(gates, gate.second);
            }
        }
    }
}

// The inputs, each with how far before the end its first reader stands, those whose first reader
// comes latest first.
fn by_first_reader(
    alloc: Global,
    gates: &Gates,
    order: &[usize],
) -> Result<Vec<(usize, usize)>, CellError> {
    let mut ranked = Vec::new(alloc);
    push_inputs(&mut ranked, gates, order.len().max(1))?;
    note_readers(&mut ranked, gates, order);
    ranked.as_mut_slice().sort_unstable();
    Ok(ranked)
}

// Adds the inputs, each as if it were first read at the start, and those that nothing reads as if
// they were at the end.
fn push_inputs(
    ranked: &mut Vec<(usize, usize)>,
    gates: &Gates,
    start: usize,
) -> Result<(), CellError> {
    ranked.reserve(gates.inputs)?;
    for input in 0..gates.inputs {
        let before_end = if gates.uses_of(input) > 0 { start } else { 0 };
        ranked.push((before_end, input))?;
    }
    Ok(())
}

fn note_readers(ranked: &mut [(usize, usize)], gates: &Gates, order: &[usize]) {
    for place in (0..order.len()).rev() {
        if let Some(gate) = gates.gates.get(order[place]) {
            let before_end = order.len().saturating_sub(place);
            note_reader(ranked, gate.first, before_end);
            note_reader(ranked, gate.second, before_end);
        }
    }
}

// Notes that a value is read so far before the end of the order.
fn note_reader(ranked: &mut [(usize, usize)], value: usize, before_end: usize) {
    if let Some((first, _)) = ranked.get_mut(value) {
        *first = before_end;
    }
}
