// Crossings counted.

use crate::search::Search;
use strand_core::{at, put};

// Adds 1 at a place of a tree of sums (Fenwick 1994). Places are counted from 1.
fn note(sums: &mut [u32], place: u32) {
    let mut place = place;
    for _ in 0..32 {
        if place == 0 || place as usize >= sums.len() {
            break;
        }
        put(sums, place, at(sums, place).saturating_add(1));
        let rest = place & place.saturating_sub(1);
        place = place.saturating_add(place.saturating_sub(rest));
    }
}

// The sum of the first places.
fn sum_to(sums: &[u32], place: u32) -> u32 {
    let (mut sum, mut place) = (0u32, place);
    for _ in 0..32 {
        sum = sum.saturating_add(at(sums, place));
        place &= place.saturating_sub(1);
    }
    sum
}

impl Search {
    // How many noted ends stand south of one.
    fn south_of(&self, end: Option<u32>, start: u32, noted: u32) -> u64 {
        let Some(end) = end else {
            return 0;
        };
        let place = self.now.place(end).saturating_sub(start);
        let north = sum_to(&self.room.sums, place.saturating_add(1));
        noted.saturating_sub(north) as u64
    }

    // Notes an end. Returns how many there are.
    fn note_end(&mut self, end: Option<u32>, start: u32) -> u32 {
        let Some(end) = end else {
            return 0;
        };
        let place = self.now.place(end).saturating_sub(start);
        note(&mut self.room.sums, place.saturating_add(1));
        1
    }

    // Where the edges of a node end in the next layer; behind the last layer, where its mate is.
    fn ends_of(&self, node: u32, is_last: bool) -> [Option<u32>; 2] {
        if is_last {
            return [self.graph.mate(node), None];
        }
        let downs = self.graph.downs.of_node(node);
        [downs.first().copied(), downs.get(1).copied()]
    }

    // How many edges cross behind a layer; behind the last one, how many pairs of mates stand in another order in the
    // first.
    pub(crate) fn cost(&mut self, layer: u32) -> u64 {
        for sum in self.room.sums.iter_mut() {
            *sum = 0;
        }
        let (start, end) = self.now.range(layer);
        let is_last = layer >= self.now.last();
        let other = if is_last { 0 } else { end };
        let (mut crossings, mut noted) = (0u64, 0u32);
        for place in start..end {
            let [first, second] = self.ends_of(self.now.node(place), is_last);
            crossings = crossings.saturating_add(self.south_of(first, other, noted));
            crossings = crossings.saturating_add(self.south_of(second, other, noted));
            noted = noted.saturating_add(self.note_end(first, other));
            noted = noted.saturating_add(self.note_end(second, other));
        }
        self.count(end.saturating_sub(start));
        crossings
    }
}
