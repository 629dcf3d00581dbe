// Graphs whose edges lead from each layer to the next.

use crate::Links;
use std::alloc::Global;
use strand_core::{add, at};

/// A graph in layers: each edge leads from a layer to the next one. `signals` says what runs along the edges that
/// leave a node. A node of the first layer and one of the last may be mates: the two ends of a wire that leads around
/// the graph. Behind the nodes that it was made of there are the points of edges that pass through layers.
#[derive(Drop)]
pub struct Layered {
    pub layers: Vec<u32>,
    pub signals: Vec<u32>,
    pub mates: Vec<Option<u32>>,
    pub ups: Links,
    pub downs: Links,
    /// Whether memory was refused: then something is missing here.
    pub is_refused: bool,
}

/// What a layered graph is made of: the layer and the signal of each node, the mates, and edges that lead to later
/// layers.
#[derive(Drop)]
pub struct Parts {
    pub layers: Vec<u32>,
    pub signals: Vec<u32>,
    pub mates: Vec<Option<u32>>,
    pub edges: Vec<(u32, u32)>,
}

impl Parts {
    /// Returns what a graph of no nodes is made of.
    pub fn new(alloc: Global) -> Parts {
        Parts {
            layers: Vec::new(alloc),
            signals: Vec::new(alloc),
            mates: Vec::new(alloc),
            edges: Vec::new(alloc),
        }
    }

    /// Returns how many nodes the graph has with the points of its edges.
    pub fn nodes(&self) -> u64 {
        let mut sum = self.layers.len() as u64;
        for (from, to) in &self.edges {
            let first = at(&self.layers, *from).saturating_add(1);
            let points = at(&self.layers, *to).saturating_sub(first);
            sum = sum.saturating_add(points as u64);
        }
        sum
    }
}

/// Returns a number in 32 bits, or the greatest of these.
pub fn small(number: usize) -> u32 {
    u32::try_from(number).unwrap_or(u32::MAX)
}

// Turns pairs around.
fn turn(pairs: &mut [(u32, u32)]) {
    for pair in pairs.iter_mut() {
        let (from, to) = *pair;
        *pair = (to, from);
    }
}

impl Layered {
    /// Makes a layered graph of its parts.
    pub fn of(alloc: Global, parts: Parts) -> Layered {
        let Parts {
            layers,
            signals,
            mates,
            edges,
        } = parts;
        let mut graph = Layered {
            layers,
            signals,
            mates,
            ups: Links::new(alloc),
            downs: Links::new(alloc),
            is_refused: false,
        };
        graph.link(alloc, &edges);
        graph
    }

    // Links the nodes and the points of the edges, which are added.
    fn link(&mut self, alloc: Global, edges: &[(u32, u32)]) {
        let mut short = Vec::new(alloc);
        for (from, to) in edges {
            self.add_edge(&mut short, *from, *to);
        }
        let count = self.layers.len();
        self.downs.fill(count, &short, &mut self.is_refused);
        turn(&mut short);
        self.ups.fill(count, &short, &mut self.is_refused);
    }

    // Adds an edge's points and the short edges between them.
    fn add_edge(&mut self, short: &mut Vec<(u32, u32)>, from: u32, to: u32) {
        let signal = at(&self.signals, from);
        let first = at(&self.layers, from).saturating_add(1);
        let mut before = from;
        for layer in first..at(&self.layers, to) {
            let node = small(self.layers.len());
            add(&mut self.layers, layer, &mut self.is_refused);
            add(&mut self.signals, signal, &mut self.is_refused);
            add(short, (before, node), &mut self.is_refused);
            before = node;
        }
        add(short, (before, to), &mut self.is_refused);
    }

    /// Returns how many layers there are.
    pub fn depth(&self) -> u32 {
        let mut last = 0u32;
        for layer in &self.layers {
            last = last.max(*layer);
        }
        last.saturating_add(1)
    }

    /// Returns the node at the other end of a wire that leads around the graph.
    pub fn mate(&self, node: u32) -> Option<u32> {
        if (node as usize) < self.mates.len() {
            self.mates[node as usize]
        } else {
            None
        }
    }
}
