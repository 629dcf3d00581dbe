// What of a graph is laid out in layers.

use crate::graph::{Node, NodeKind};
use lists::OutOfMemory;
use std::alloc::Global;
use strand_core::{East, West, add, set};
use strand_orders::{Parts, small};

// Adds the edge that leads to a node from another one.
fn add_edge(parts: &mut Parts, from: Option<u32>, to: u32, is_refused: &mut bool) {
    if let Some(from) = from {
        add(&mut parts.edges, (from, to), is_refused);
    }
}

fn add_nodes(parts: &mut Parts, nodes: &[Node], is_refused: &mut bool) {
    let mut number = 0u32;
    for node in nodes {
        add(&mut parts.layers, node.layer, is_refused);
        add(&mut parts.signals, node.value, is_refused);
        add(&mut parts.mates, None, is_refused);
        add_edge(parts, node.ins[0], number, is_refused);
        add_edge(parts, node.ins[1], number, is_refused);
        number = number.saturating_add(1);
    }
}

// Notes where the registers' data are.
fn note_ends(ends: &mut [Option<u32>], nodes: &[Node]) {
    for number in 0..nodes.len() {
        if let NodeKind::East(East::Register(register)) = nodes[number].kind {
            set(ends, register, Some(small(number)));
        }
    }
}

// Makes mates of the two nodes of each register.
fn note_mates(mates: &mut [Option<u32>], ends: &[Option<u32>], nodes: &[Node]) {
    for number in 0..nodes.len() {
        if let NodeKind::West(West::Register(register)) = nodes[number].kind {
            if let Some(Some(end)) = ends.get(register as usize) {
                set(mates, small(number), Some(*end));
                set(mates, *end, Some(small(number)));
            }
        }
    }
}

/// Returns what of a graph with so many registers is laid out in layers.
pub fn parts_of(alloc: Global, nodes: &[Node], registers: usize) -> Result<Parts, OutOfMemory> {
    let mut ends = vec![in alloc; None; registers]?;
    note_ends(&mut ends, nodes);
    let mut parts = Parts::new(alloc);
    let mut is_refused = false;
    add_nodes(&mut parts, nodes, &mut is_refused);
    note_mates(&mut parts.mates, &ends, nodes);
    if is_refused {
        Err(OutOfMemory::NoMemory)
    } else {
        Ok(parts)
    }
}
