// Climbing: small changes are kept if they do not make the drawing much larger, and less and less
// so as it goes on; the best draft is kept besides.
use crate::cooling::{Cooling, loss};
use crate::placing::{Change, Placer};
use cell_core::{CellError, Draws};
use order_drafts::{Draft, Gates, Homes};
use std::alloc::Global;
use std::mem;
use std::ops::Range;

// Of 100 changes so many are of the number of lanes, and of inputs' lanes at most. The fewer inputs
// there are for each cell, the fewer changes are of inputs.
const OF_LANES: usize = 2;

const OF_INPUTS: usize = 15;

// Of 100 changes of the order so many move neighbours together, and how many of these at most.
const OF_BLOCKS: usize = 40;

const LONGEST_BLOCK: usize = 13;

/// A draft of a list, the list's number, and how many tiles the draft's drawing has.
#[derive(Drop)]
pub struct Camp {
    pub list: usize,
    pub draft: Draft,
    pub tiles: u64,
}

/// A climber: it changes a draft, keeps the changes that bring no much larger drawing, and leaves
/// the best draft at a camp.
#[derive(Drop)]
pub struct Climber {
    alloc: Global,
    placer: Placer,
    draws: Draws,
    draft: Draft,
    tiles: u64,
    // the most tiles that the next change may bring
    most: u64,
    // the homes of the draft before a change, or after it
    other: Homes,
}

impl Climber {
    /// Returns a climber that starts at a camp of these gates.
    pub fn new(alloc: Global, gates: &Gates, camp: &Camp, seed: u64) -> Result<Climber, CellError> {
        Ok(Climber {
            alloc,
            placer: Placer::new(alloc, gates)?,
            draws: Draws::new(seed),
            draft: camp.draft.copied(alloc)?,
            tiles: camp.tiles,
            most: u64::MAX,
            other: Homes::new(alloc),
        })
    }

    /// Tries changes until so many lanes were passed, and moves the camp to the best draft.
    pub fn climb(
        &mut self,
        gates: &Gates,
        camp: &mut Camp,
        work: usize,
        cooling: Cooling,
    ) -> Result<(), CellError> {
        self.accept_if_small(gates, Change::Lanes)?;
        for _ in 0..work {
            if self.placer.work >= work {
                break;
            }
            self.most = self.most_tiles(gates, cooling.heat(self.placer.work, work));
            self.placer.count(1, self.draft.homes.lanes);
            self.change(gates)?;
            if self.tiles < camp.tiles && self.draft.has_room(self.alloc, gates)? {
                camp.tiles = self.tiles;
                camp.draft.copy(&self.draft)?;
            }
        }
        Ok(())
    }

    // The most tiles that a change may bring if the temperature is so many 256ths of a column.
    fn most_tiles(&mut self, gates: &Gates, heat: u64) -> u64 {
        let rows = self.draft.homes.lanes.saturating_add(gates.loops) as u64;
        let more = heat
            .saturating_mul(loss(&mut self.draws))
            .saturating_mul(rows);
        self.tiles.saturating_add(more >> 16)
    }

    // Tries a change.
    fn change(&mut self, gates: &Gates) -> Result<(), CellError> {
        let drawn = self.draws.below(100);
        let inputs = OF_INPUTS.saturating_mul(8).saturating_mul(gates.read.len());
        let share = inputs / self.draft.order.len().max(1);
        let of_inputs = share.saturating_add(1).min(OF_INPUTS);
        if drawn < OF_LANES {
            self.try_lanes(gates)
        } else if drawn < OF_LANES.saturating_add(of_inputs) {
            self.try_input(gates)
        } else {
            self.try_order(gates)
        }
    }

    // Whether the changed draft's drawing is small enough; if so, it is accepted.
    fn accept_if_small(&mut self, gates: &Gates, change: Change) -> Result<bool, CellError> {
        match self.placer.tiles(gates, &self.draft, change, self.most)? {
            Some(tiles) => {
                self.tiles = tiles;
                self.placer.accept();
                Ok(true)
            }
            None => Ok(false),
        }
    }

    // The cell at a random place of the order, or a block of cells that ends there.
    fn random_block(&mut self) -> Range<usize> {
        let last = self.draws.below(self.draft.order.len());
        let mut count = 1;
        if self.draws.below(100) < OF_BLOCKS {
            count = self.draws.below(LONGEST_BLOCK - 1).saturating_add(2);
        }
        let end = last.saturating_add(1);
        end.saturating_sub(count)..end
    }

    // Tries a block of cells at another place of the order.
    fn try_order(&mut self, gates: &Gates) -> Result<(), CellError> {
        let block = self.random_block();
        let range = self.draft.range(gates, &block);
        let places = range.end.saturating_sub(range.start);
        let to = range.start.saturating_add(self.draws.below(places));
        if places == 0 || to == block.start {
            return Ok(());
        }
        self.try_shift(gates, &block, to)
    }

    // Tries a block of cells with its first cell at place `to`.
    fn try_shift(
        &mut self,
        gates: &Gates,
        block: &Range<usize>,
        to: usize,
    ) -> Result<(), CellError> {
        let count = block.end.saturating_sub(block.start);
        let changed = self.draft.shift(gates, block, to);
        let last = changed.end.saturating_sub(1);
        if !self.accept_if_small(gates, Change::Order(changed.start, last))? {
            let moved = to..to.saturating_add(count);
            self.draft.shift(gates, &moved, block.start);
        }
        Ok(())
    }

    // A random input that is read.
    fn random_input(&mut self, gates: &Gates) -> Option<usize> {
        let number = self.draws.below(gates.read.len());
        gates.read.get(number).copied()
    }

    // The lane of a random input, or a random one above the loops, but for as many at the top as
    // there are inputs that nothing reads.
    fn other_lane(&mut self, gates: &Gates) -> Option<usize> {
        if self.draws.coin() {
            let other = self.random_input(gates)?;
            return self.draft.homes.ins.get(other).copied();
        }
        let above = gates.above(self.draft.homes.lanes);
        let first = gates.unread();
        let lane = self.draws.below(above.saturating_sub(first));
        Some(first.saturating_add(lane))
    }

    // Tries an input on another lane, or on that of another input.
    fn try_input(&mut self, gates: &Gates) -> Result<(), CellError> {
        let Some(input) = self.random_input(gates) else {
            return Ok(());
        };
        let Some(lane) = self.other_lane(gates) else {
            return Ok(());
        };
        if self.draft.homes.is_home(input, lane) {
            return Ok(());
        }
        self.other.copy(&self.draft.homes)?;
        self.other.place(input, lane);
        self.try_other(gates, Change::Inputs)
    }

    // Tries one or two lanes more, or one less.
    fn try_lanes(&mut self, gates: &Gates) -> Result<(), CellError> {
        let old = self.draft.homes.lanes;
        let lanes = match self.draws.below(4) {
            0 => old.saturating_add(1),
            1 | 2 => old.saturating_sub(1),
            _ => old.saturating_add(2),
        };
        if lanes < gates.fewest_homes() {
            return Ok(());
        }
        self.other.copy(&self.draft.homes)?;
        if !self.other.resize(lanes, gates.above(lanes))? {
            return Ok(());
        }
        self.try_other(gates, Change::Lanes)
    }

    // Tries the other homes.
    fn try_other(&mut self, gates: &Gates, change: Change) -> Result<(), CellError> {
        mem::swap(&mut self.draft.homes, &mut self.other);
        if !self.accept_if_small(gates, change)? {
            mem::swap(&mut self.draft.homes, &mut self.other);
        }
        Ok(())
    }
}
