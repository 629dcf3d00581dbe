// Single nodes moved within their layers.

use crate::search::Search;
use strand_core::{at, set};

// The place of a node, and what it costs there: crossings more than where it stands.
#[derive(Clone, Copy)]
struct Choice {
    cost: i64,
    place: u32,
}

impl Choice {
    fn or(self, cost: i64, place: u32) -> Choice {
        if cost < self.cost {
            Choice { cost, place }
        } else {
            self
        }
    }
}

impl Search {
    // 1 if the first node stands behind the second one, and -1 if before.
    fn order(&self, first: u32, second: u32) -> i64 {
        let (place, other) = (self.now.place(first), self.now.place(second));
        if place > other {
            1
        } else if place < other {
            -1
        } else {
            0
        }
    }

    // How often a node stands behind others, less how often before.
    fn behind(&self, first: u32, others: &[u32]) -> i64 {
        let mut sum = 0i64;
        for other in others {
            sum = sum.wrapping_add(self.order(first, *other));
        }
        sum
    }

    fn has_one_signal(&self, first: u32, second: u32) -> bool {
        at(&self.graph.signals, first) == at(&self.graph.signals, second)
    }

    // How often a node stands behind others that have another signal, less how often before.
    fn behind_others(&self, first: u32, others: &[u32]) -> i64 {
        let mut sum = 0i64;
        for other in others {
            if !self.has_one_signal(first, *other) {
                sum = sum.wrapping_add(self.order(first, *other));
            }
        }
        sum
    }

    // How many crossings before two neighbours of a layer are gone if they change places.
    fn gain_before(&self, upper: u32, lower: u32) -> i64 {
        let others = self.graph.ups.of_node(lower);
        let mut sum = 0i64;
        for node in self.graph.ups.of_node(upper) {
            sum = sum.wrapping_add(self.behind_others(*node, others));
        }
        sum
    }

    // How many crossings behind two neighbours of a layer are gone if they change places.
    fn gain_behind(&self, upper: u32, lower: u32) -> i64 {
        if self.has_one_signal(upper, lower) {
            return 0;
        }
        let others = self.graph.downs.of_node(lower);
        let mut sum = 0i64;
        for node in self.graph.downs.of_node(upper) {
            sum = sum.wrapping_add(self.behind(*node, others));
        }
        sum
    }

    // How many crossings are gone if two neighbours change places. Edges with the same signal do not count.
    fn gain(&self, upper: u32, lower: u32) -> i64 {
        let before = self.gain_before(upper, lower);
        let sum = before.wrapping_add(self.gain_behind(upper, lower));
        match (self.graph.mate(upper), self.graph.mate(lower)) {
            (Some(first), Some(second)) => sum.wrapping_add(self.order(first, second)),
            _ => sum,
        }
    }

    // Marks a layer and those beside it, in which neighbours are to be compared. The last layer is beside the first.
    pub(crate) fn mark(&mut self, layer: u32) {
        let (before, last) = (self.before(layer), self.now.last());
        let after = if layer < last {
            layer.saturating_add(1)
        } else {
            0
        };
        set(&mut self.is_due, layer, true);
        set(&mut self.is_due, after, true);
        set(&mut self.is_due, before, true);
    }

    // Exchanges neighbours in a layer where that spares crossings. Returns whether it does anywhere.
    fn exchange_in(&mut self, layer: u32) -> bool {
        if !matches!(self.is_due.get(layer as usize), Some(true)) {
            return false;
        }
        set(&mut self.is_due, layer, false);
        let (start, end) = self.now.range(layer);
        let mut has_changed = false;
        for place in start.saturating_add(1)..end {
            let upper = self.now.node(place.saturating_sub(1));
            if self.gain(upper, self.now.node(place)) > 0 {
                self.now.exchange(place);
                has_changed = true;
            }
        }
        self.count(end.saturating_sub(start));
        if has_changed {
            self.mark(layer);
        }
        has_changed
    }

    // Exchanges neighbours in some layers where that spares crossings. Returns whether it does anywhere.
    pub(crate) fn exchange_all(&mut self, first: u32, last: u32) -> bool {
        let mut has_changed = false;
        for layer in first..last.saturating_add(1) {
            has_changed |= self.exchange_in(layer);
        }
        has_changed
    }

    // The best place of a node north of its own, down to a first one.
    fn best_north(&self, node: u32, first: u32, from: u32) -> Choice {
        let mut sum = 0i64;
        let mut best = Choice {
            cost: 0,
            place: from,
        };
        for place in (first..from).rev() {
            sum = sum.wrapping_sub(self.gain(self.now.node(place), node));
            best = best.or(sum, place);
        }
        best
    }

    // The best place of a node south of its own, before an end.
    fn best_south(&self, node: u32, from: u32, end: u32) -> Choice {
        let mut sum = 0i64;
        let mut best = Choice {
            cost: 0,
            place: from,
        };
        for place in from.saturating_add(1)..end {
            sum = sum.wrapping_sub(self.gain(node, self.now.node(place)));
            best = best.or(sum, place);
        }
        best
    }

    // Moves a node to the place of its layer at which it has the fewest crossings. Returns whether it moves.
    fn sift(&mut self, node: u32) -> bool {
        let (start, end) = self.now.range(at(&self.graph.layers, node));
        let from = self.now.place(node);
        let first = start.max(from.saturating_sub(self.reach));
        let end = end.min(from.saturating_add(self.reach));
        self.count(end.saturating_sub(first));
        let north = self.best_north(node, first, from);
        let south = self.best_south(node, from, end);
        let best = south.or(north.cost, north.place);
        if best.place != from {
            self.now.shift(from, best.place);
        }
        best.place != from
    }

    fn sift_layer(&mut self, layer: u32) -> bool {
        let (start, end) = self.now.range(layer);
        for place in start..end {
            let node = self.now.node(place);
            self.note_key(place.saturating_sub(start), (0, place, node));
        }
        let mut has_changed = false;
        for number in 0..end.saturating_sub(start) {
            let node = self.noted(number);
            has_changed |= self.sift(node);
        }
        if has_changed {
            self.mark(layer);
        }
        has_changed
    }

    // Moves each node of some layers to the place at which it has the fewest crossings. Returns whether any moves.
    pub(crate) fn sift_all(&mut self, first: u32, last: u32) -> bool {
        let mut has_changed = false;
        for layer in first..last.saturating_add(1) {
            has_changed |= self.sift_layer(layer);
        }
        has_changed
    }
}
