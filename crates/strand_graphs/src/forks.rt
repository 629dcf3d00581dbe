// Trees of forks: the copies of a value for all that read it.

use std::alloc::Global;
use std::mem;
use strand_core::add;
use strand_orders::small;

/// What takes a copy: an entry of a reader, or a fork of the same tree, each by its number.
#[derive(Clone, Copy)]
pub enum Branch {
    Entry(u32),
    Fork(u32),
}

/// A tree of forks, the last of which is its root. Each stands as near to what takes its copies as may be.
#[derive(Drop)]
pub struct Tree {
    pub forks: Vec<(Branch, Branch)>,
    // what takes a copy in the present layer, and in the one before: the first of its entries and the fork, or this
    // entry alone
    open: Vec<(u32, Option<u32>)>,
    next: Vec<(u32, Option<u32>)>,
    /// Whether memory was refused: then something is missing here.
    pub is_refused: bool,
}

fn branch_of(open: (u32, Option<u32>)) -> Branch {
    match open {
        (_, Some(fork)) => Branch::Fork(fork),
        (entry, None) => Branch::Entry(entry),
    }
}

impl Tree {
    /// Returns an empty tree.
    pub fn new(alloc: Global) -> Tree {
        Tree {
            forks: Vec::new(alloc),
            open: Vec::new(alloc),
            next: Vec::new(alloc),
            is_refused: false,
        }
    }

    /// Makes this the tree for some readings, which are used up: the layers in which readers stand, and their entries.
    pub fn grow(&mut self, readings: &mut Vec<(u32, u32)>) {
        self.forks.clear();
        self.open.clear();
        readings.as_mut_slice().sort_unstable();
        let mut layer = u32::MAX;
        // Each turn takes up a reading, or halves what is open.
        for _ in 0..readings.len().saturating_mul(2).saturating_add(40) {
            if self.open.len() < 2 {
                let Some((last, _)) = readings.last() else {
                    return;
                };
                layer = layer.min(*last);
            }
            self.open_all(readings, layer);
            self.join();
            layer = layer.saturating_sub(1);
        }
    }

    // Takes up the readings in a layer or behind it.
    fn open_all(&mut self, readings: &mut Vec<(u32, u32)>, layer: u32) {
        for _ in 0..readings.len() {
            let Some((last, entry)) = readings.last().copied() else {
                break;
            };
            if last < layer {
                break;
            }
            add(&mut self.open, (entry, None), &mut self.is_refused);
            readings.pop();
        }
        self.open.as_mut_slice().sort_unstable();
    }

    // Joins neighbours by forks.
    fn join(&mut self) {
        self.next.clear();
        for pair in 0..self.open.len() / 2 {
            self.join_pair(pair.saturating_mul(2));
        }
        if self.open.len() % 2 == 1 {
            if let Some(alone) = self.open.last() {
                add(&mut self.next, *alone, &mut self.is_refused);
            }
        }
        mem::swap(&mut self.open, &mut self.next);
    }

    // Joins what is open at a place and behind it.
    fn join_pair(&mut self, place: usize) {
        if place < self.open.len() && self.open.len() - place > 1 {
            let (first, second) = (self.open[place], self.open[place + 1]);
            let fork = Some(small(self.forks.len()));
            add(&mut self.next, (first.0, fork), &mut self.is_refused);
            let branches = (branch_of(first), branch_of(second));
            add(&mut self.forks, branches, &mut self.is_refused);
        }
    }
}
