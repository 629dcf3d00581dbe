// The search: orders from several beginnings, and then changes of the best.

use crate::layered::{Layered, small};
use crate::orders::Orders;
use crate::room::Room;
use crate::sweeps::Weights;
use cell_core::Draws;
use lists::OutOfMemory;
use std::alloc::Global;
use strand_core::{Effort, set, widen};

// For each node of a graph so many steps are made. A step compares two nodes of a layer, or passes one in a sweep.
const WORK_OF_NODE: u64 = 6_000;

// When so many steps for each node, of a whole search, have spared no crossing, no more are made.
const PATIENCE_OF_NODE: u64 = 1_500;

// Single nodes are moved no farther than that all nodes together take this part of the work.
const PART: u64 = 40;

// How many beginnings there are, and how many hundredths of the work they take. Then of 100 changes so many begin with
// the first layer.
const BEGINNINGS: u64 = 4;

const OF_BEGINNINGS: u64 = 40;

const OF_FIRST: usize = 20;

// In a sweep the neighbours in the layer from which it comes count for 10, and the others for less than so much.
const SIDES: usize = 9;

/// A layered graph whose edges with one signal run side by side, and orders of its layers.
#[derive(Drop)]
pub struct Ordered {
    pub graph: Layered,
    pub orders: Orders,
    /// How many edges cross.
    pub crossings: u64,
}

// A graph and its orders while they are changed; `best` is the best order of this beginning, and `found` that of all.
// `costs` says how many edges cross behind each layer in the best order.
#[derive(Drop)]
pub(crate) struct Search {
    pub graph: Layered,
    pub now: Orders,
    pub room: Room,
    pub draws: Draws,
    pub reach: u32,
    // the layers in which neighbours are to be compared
    pub is_due: Vec<bool>,
    best: Vec<u32>,
    found: Vec<u32>,
    costs: Vec<u64>,
    least: u64,
    work: u64,
    most: u64,
    patience: u64,
    is_refused: bool,
}

// How many nodes the widest layer has.
fn widest(orders: &Orders) -> u32 {
    let mut most = 0u32;
    for layer in 0..orders.depth() {
        let (start, end) = orders.range(layer);
        most = most.max(end.saturating_sub(start));
    }
    most
}

// Copies places of an order.
fn copy(to: &mut [u32], from: &[u32], start: u32, end: u32) {
    for place in start as usize..(end as usize).min(to.len()).min(from.len()) {
        to[place] = from[place];
    }
}

fn sum_of(costs: &[u64]) -> u64 {
    let mut sum = 0u64;
    for cost in costs {
        sum = sum.saturating_add(*cost);
    }
    sum
}

// How far single nodes are moved.
fn reach_for(most: u64, nodes: u64) -> u32 {
    let steps = most / PART / nodes.max(1);
    u32::try_from(steps).unwrap_or(u32::MAX).max(4)
}

impl Search {
    fn new(alloc: Global, graph: Layered, seed: u64, effort: Effort) -> Search {
        let nodes = graph.layers.len() as u64;
        let most = effort.of(nodes.saturating_mul(WORK_OF_NODE));
        let is_refused = graph.is_refused;
        Search {
            graph,
            now: Orders::new(alloc),
            room: Room::new(alloc),
            draws: Draws::new(seed),
            reach: reach_for(most, nodes),
            is_due: Vec::new(alloc),
            best: Vec::new(alloc),
            found: Vec::new(alloc),
            costs: Vec::new(alloc),
            least: u64::MAX,
            work: 0,
            most,
            patience: effort.of(nodes.saturating_mul(PATIENCE_OF_NODE)),
            is_refused,
        }
    }

    // Puts the nodes of each layer in order by their numbers, and makes room for the search.
    fn make_room(&mut self) {
        self.now.fill(&self.graph, &mut self.is_refused);
        self.room
            .widen(widest(&self.now) as usize, &mut self.is_refused);
        let (depth, count) = (self.now.depth() as usize, self.graph.layers.len());
        widen(&mut self.best, count, 0, &mut self.is_refused);
        widen(&mut self.found, count, 0, &mut self.is_refused);
        widen(&mut self.costs, depth, 0, &mut self.is_refused);
        widen(&mut self.is_due, depth, false, &mut self.is_refused);
        copy(&mut self.best, self.now.order(), 0, small(count));
        copy(&mut self.found, self.now.order(), 0, small(count));
    }

    // Counts steps.
    pub(crate) fn count(&mut self, steps: u32) {
        self.work = self.work.saturating_add(steps as u64);
    }

    fn note_cost(&mut self, layer: u32) {
        let cost = self.cost(layer);
        set(&mut self.costs, layer, cost);
    }

    // The layer before one, which is the last one before the first.
    pub(crate) fn before(&self, layer: u32) -> u32 {
        match layer.checked_sub(1) {
            Some(before) => before,
            None => self.now.last(),
        }
    }

    // Keeps the present orders of some layers as the best ones.
    fn keep(&mut self, first: u32, last: u32) {
        let ((start, _), (_, end)) = (self.now.range(first), self.now.range(last));
        copy(&mut self.best, self.now.order(), start, end);
        self.note_cost(self.before(first));
        for layer in first..last.saturating_add(1) {
            self.note_cost(layer);
        }
    }

    // Goes back to the best orders of some layers.
    fn go_back(&mut self, first: u32, last: u32) {
        self.now.take_layers(&self.best, first, last);
        self.untangle(first, last);
    }

    // How many crossings more the present orders have behind a layer than the best.
    fn more_behind(&mut self, layer: u32) -> i64 {
        let cost = i64::try_from(self.cost(layer)).unwrap_or(i64::MAX);
        let noted = self.costs.get(layer as usize).copied().unwrap_or(0);
        cost.saturating_sub(i64::try_from(noted).unwrap_or(i64::MAX))
    }

    // How many crossings more the present orders have than the best, if some layers have changed.
    fn more(&mut self, first: u32, last: u32) -> i64 {
        let mut sum = 0i64;
        for layer in first..last.saturating_add(1) {
            sum = sum.saturating_add(self.more_behind(layer));
        }
        let before = self.before(first);
        if before < first || before > last {
            sum = sum.saturating_add(self.more_behind(before));
        }
        sum
    }

    // Keeps the present orders of some layers if they are no worse than the best, and otherwise goes back.
    fn settle(&mut self, first: u32, last: u32) {
        self.untangle(first, last);
        if self.more(first, last) <= 0 {
            self.keep(first, last);
        } else {
            self.go_back(first, last);
        }
    }

    // Sorts some layers by their neighbours before and behind, again and again. How much those on the other side count
    // is drawn: that finds other orders each time.
    fn sweep_all(&mut self, first: u32, last: u32, rounds: u64) {
        for _ in 0..rounds {
            let side = self.draws.below(SIDES) as u64;
            let up = Weights {
                up: side,
                down: 10,
                noise: 1,
            };
            self.sweep_up(first, last, up);
            let down = Weights {
                up: 10,
                down: side,
                noise: 1,
            };
            self.sweep_down(first, last, down);
        }
    }

    // Moves single nodes of some layers while that spares crossings.
    fn refine(&mut self, first: u32, last: u32) {
        for layer in first..last.saturating_add(1) {
            self.mark(layer);
        }
        for round in 0..120u32 {
            let has_changed = if round % 20 == 19 {
                self.sift_all(first, last)
            } else {
                self.exchange_all(first, last)
            };
            if !has_changed || self.work >= self.most {
                break;
            }
        }
    }

    // Begins anew with the first layer in another order, which is changed by so much.
    fn begin(&mut self, noise: usize) {
        let last = self.now.last();
        let weights = Weights {
            up: 0,
            down: 0,
            noise,
        };
        self.sweep(0, weights);
        let weights = Weights {
            up: 1,
            down: 0,
            noise: 1,
        };
        self.sweep_down(1, last, weights);
        self.sweep_all(0, last, 8);
        self.refine(0, last);
        self.settle(0, last);
    }

    // Begins anew near to the best order.
    fn begin_near(&mut self) {
        let noise = 1usize << self.draws.below(8).saturating_add(16).min(24);
        self.begin(noise);
    }

    // Changes some layers at random, and improves them.
    fn disturb(&mut self) {
        let depth = self.now.depth();
        let first = small(self.draws.below(depth as usize));
        let length = small(self.draws.below((depth / 2).max(2) as usize));
        let last = first.saturating_add(length).min(self.now.last());
        let noise = self.draws.below(400).saturating_add(50);
        let weights = Weights {
            up: 10,
            down: 10,
            noise: noise.saturating_mul(1 << 10),
        };
        self.sweep_down(first, last, weights);
        self.sweep_all(first, last, 2);
        self.refine(first, last);
        self.settle(first, last);
    }

    // Follows one beginning until so much work is done, and keeps what is best of all.
    fn follow(&mut self, noise: usize, until: u64) {
        let last = self.now.last();
        for cost in self.costs.iter_mut() {
            *cost = 1 << 40;
        }
        self.begin(noise);
        for _ in 0..until {
            if self.work >= until || sum_of(&self.costs) == 0 {
                break;
            }
            self.begin_near();
        }
        let sum = sum_of(&self.costs);
        if sum < self.least {
            self.least = sum;
            let (_, end) = self.now.range(last);
            copy(&mut self.found, &self.best, 0, end);
        }
    }

    // Changes the best order until all work is done.
    fn change_best(&mut self) {
        let last = self.now.last();
        let (_, end) = self.now.range(last);
        copy(&mut self.best, &self.found, 0, end);
        self.go_back(0, last);
        self.keep(0, last);
        let mut until = self.work.saturating_add(self.patience);
        let mut least = sum_of(&self.costs);
        for _ in 0..self.most {
            if self.work >= self.most.min(until) || least == 0 {
                break;
            }
            if self.draws.below(100) < OF_FIRST {
                self.begin_near();
            } else {
                self.disturb();
            }
            let sum = sum_of(&self.costs);
            if sum < least {
                least = sum;
                until = self.work.saturating_add(self.patience);
            }
        }
    }

    // Follows the beginnings one after the other, and then changes the best order of all.
    fn run(&mut self) {
        let share = self.most / 100 * OF_BEGINNINGS / BEGINNINGS;
        for number in 1..BEGINNINGS + 1 {
            if self.least > 0 && self.work < self.most {
                let noise = if number == 1 { 1 } else { 1 << 30 };
                self.follow(noise, share.saturating_mul(number));
            }
        }
        self.change_best();
    }
}

/// Returns orders of a graph's layers in which few edges cross. The same graph and seed give the same orders.
pub fn few_crossings(
    alloc: Global,
    graph: Layered,
    seed: u64,
    effort: Effort,
) -> Result<Ordered, OutOfMemory> {
    let mut search = Search::new(alloc, graph, seed, effort);
    search.make_room();
    if search.is_refused {
        return Err(OutOfMemory::NoMemory);
    }
    search.run();
    let crossings = sum_of(&search.costs);
    Ok(Ordered {
        graph: search.graph,
        orders: search.now,
        crossings,
    })
}
