// Orders of the layers of a graph.

use crate::layered::{Layered, small};
use std::alloc::Global;
use strand_core::{at, put, widen};

/// Orders of the layers of a graph, from north to south: one layer stands behind the other, and places are counted
/// through all of them.
#[derive(Drop)]
pub struct Orders {
    // where each layer starts, and where the last one ends
    starts: Vec<u32>,
    order: Vec<u32>,
    places: Vec<u32>,
    // how far south each place is in its layer
    heights: Vec<u32>,
}

// A layer is so high.
const HEIGHT: u32 = 1 << 20;

// Counts the nodes of each layer, and adds up: then each layer has the place behind its last node.
fn add_up(starts: &mut [u32], layers: &[u32]) {
    for layer in layers {
        put(starts, *layer, at(starts, *layer).saturating_add(1));
    }
    let mut sum = 0u32;
    for start in starts.iter_mut() {
        sum = sum.saturating_add(*start);
        *start = sum;
    }
}

fn fill(starts: &mut [u32], order: &mut [u32], layers: &[u32]) {
    for node in (0..layers.len()).rev() {
        let layer = layers[node];
        let start = at(starts, layer).saturating_sub(1);
        put(starts, layer, start);
        put(order, start, small(node));
    }
}

// Notes how far south the places of a layer are.
fn fill_heights(heights: &mut [u32], start: u32, end: u32) {
    let step = HEIGHT / end.saturating_sub(start).max(1);
    let mut height = step / 2;
    for place in start..end {
        put(heights, place, height);
        height = height.saturating_add(step);
    }
}

// Moves the first of the nodes between two places behind the others, or the last one before them.
fn rotate(order: &mut [u32], start: usize, end: usize, is_first: bool) {
    if start < end && end <= order.len() {
        if is_first {
            order[start..end].rotate_left(1);
        } else {
            order[start..end].rotate_right(1);
        }
    }
}

impl Orders {
    // The orders of no layers.
    pub(crate) fn new(alloc: Global) -> Orders {
        Orders {
            starts: Vec::new(alloc),
            order: Vec::new(alloc),
            places: Vec::new(alloc),
            heights: Vec::new(alloc),
        }
    }

    // Takes the layers of a graph, and orders the nodes of each by their numbers. Notes if memory is refused.
    pub(crate) fn fill(&mut self, graph: &Layered, is_refused: &mut bool) {
        let (count, depth) = (graph.layers.len(), graph.depth());
        widen(
            &mut self.starts,
            depth.saturating_add(1) as usize,
            0,
            is_refused,
        );
        widen(&mut self.order, count, 0, is_refused);
        widen(&mut self.places, count, 0, is_refused);
        widen(&mut self.heights, count, 0, is_refused);
        add_up(&mut self.starts, &graph.layers);
        fill(&mut self.starts, &mut self.order, &graph.layers);
        self.renumber(0, small(count));
        for layer in 0..depth {
            let (start, end) = self.range(layer);
            fill_heights(&mut self.heights, start, end);
        }
    }

    /// Returns how many layers there are.
    pub fn depth(&self) -> u32 {
        small(self.starts.len()).saturating_sub(1)
    }

    /// Returns the last layer.
    pub fn last(&self) -> u32 {
        self.depth().saturating_sub(1)
    }

    /// Returns the first place of a layer, and the one behind its last.
    pub fn range(&self, layer: u32) -> (u32, u32) {
        let end = at(&self.starts, layer.saturating_add(1));
        (at(&self.starts, layer), end)
    }

    /// Returns the node at a place.
    pub fn node(&self, place: u32) -> u32 {
        at(&self.order, place)
    }

    /// Returns the place of a node.
    pub fn place(&self, node: u32) -> u32 {
        at(&self.places, node)
    }

    // How far south a node stands in its layer.
    pub(crate) fn height(&self, node: u32) -> u64 {
        at(&self.heights, self.place(node)) as u64
    }

    // The nodes in their order.
    pub(crate) fn order(&self) -> &[u32] {
        &self.order
    }

    // Puts a node at a place.
    pub(crate) fn stand(&mut self, place: u32, node: u32) {
        put(&mut self.order, place, node);
        put(&mut self.places, node, place);
    }

    // Notes the places of the nodes that stand between two places.
    fn renumber(&mut self, start: u32, end: u32) {
        for place in start..end {
            put(&mut self.places, at(&self.order, place), place);
        }
    }

    // Takes the orders of some layers from those of all.
    pub(crate) fn take_layers(&mut self, order: &[u32], first: u32, last: u32) {
        let (start, _) = self.range(first);
        let (_, end) = self.range(last);
        for place in start..end {
            self.stand(place, at(order, place));
        }
    }

    // Exchanges the nodes at a place and before it.
    pub(crate) fn exchange(&mut self, place: u32) {
        let before = place.saturating_sub(1);
        let (upper, lower) = (self.node(before), self.node(place));
        self.stand(before, lower);
        self.stand(place, upper);
    }

    // Moves the node at a place to another one of its layer.
    pub(crate) fn shift(&mut self, from: u32, to: u32) {
        let (start, end) = (from.min(to), from.max(to).saturating_add(1));
        rotate(&mut self.order, start as usize, end as usize, from < to);
        self.renumber(start, end);
    }
}
