// A circuit that changes, with the times of its signals, and what undoes the last change.
use crate::waits::Choice;
use std::alloc::Global;
use std::cmp::Reverse;
use std::collections::BinaryHeap;
use strand_core::{East, End, Strand, StrandCircuit, Tile, TileKind, West, add, set};

/// A tile, which signal waits if it is a Cross, and what it weighs with the bumps before it.
#[derive(Clone, Copy)]
pub struct Node {
    pub tile: Tile,
    pub choice: Choice,
    pub weight: u32,
}

/// A strand, and how many columns there are at the least before its beginning.
#[derive(Clone, Copy)]
pub struct Wire {
    pub strand: Strand,
    pub level: u32,
}

const NO_WIRE: Wire = Wire {
    strand: Strand {
        maker: None,
        user: None,
        late: 0,
    },
    level: 0,
};

/// Two strands that cross, before their Cross and behind it, the number of this tile, and which signal waits there.
#[derive(Clone, Copy)]
pub struct Crossing {
    pub at: u32,
    pub choice: Choice,
    pub ins: [u32; 2],
    pub outs: [u32; 2],
}

// What was at a number before a change.
#[derive(Clone, Copy)]
enum Old {
    Node(u32, Option<Node>),
    Wire(u32, Wire),
}

/// A circuit: its tiles by their numbers, or None where one is gone, its strands, and its ends.
#[derive(Drop)]
pub struct Web {
    pub nodes: Vec<Option<Node>>,
    pub wires: Vec<Wire>,
    pub west: Vec<End<West>>,
    pub east: Vec<End<East>>,
    /// How many tiles' times were computed.
    pub work: u64,
    /// The weight of all tiles with the bumps before them.
    pub weight: u64,
    old: Vec<Old>,
    old_weight: u64,
    /// The tiles whose times are to be computed, by the columns before their ends.
    pub todo: BinaryHeap<(Reverse<u32>, u32)>,
    /// Tiles around a change, which may be rewritten.
    pub near: Vec<u32>,
    /// Whether memory was refused: then something is missing here.
    pub is_refused: bool,
}

/// Returns both strands of a side of a tile, if there are two.
pub fn pair_of(ends: [Option<u32>; 2]) -> Option<[u32; 2]> {
    match (ends[0], ends[1]) {
        (Some(upper), Some(lower)) => Some([upper, lower]),
        _ => None,
    }
}

impl Web {
    /// Returns the web of a circuit. No times are computed yet.
    pub fn of(alloc: Global, circuit: &StrandCircuit) -> Web {
        let mut web = Web {
            nodes: Vec::new(alloc),
            wires: Vec::new(alloc),
            west: Vec::new(alloc),
            east: Vec::new(alloc),
            work: 0,
            weight: 0,
            old: Vec::new(alloc),
            old_weight: 0,
            todo: BinaryHeap::new(alloc),
            near: Vec::new(alloc),
            is_refused: false,
        };
        web.add_tiles(&circuit.tiles);
        web.add_strands(&circuit.strands);
        web.is_refused |= web.west.extend_from_slice(&circuit.west).is_err();
        web.is_refused |= web.east.extend_from_slice(&circuit.east).is_err();
        web
    }

    fn add_tiles(&mut self, tiles: &[Tile]) {
        for tile in tiles {
            let node = Node {
                tile: *tile,
                choice: Choice::Later,
                weight: 0,
            };
            add(&mut self.nodes, Some(node), &mut self.is_refused);
        }
    }

    fn add_strands(&mut self, strands: &[Strand]) {
        for strand in strands {
            let wire = Wire {
                strand: *strand,
                level: 0,
            };
            add(&mut self.wires, wire, &mut self.is_refused);
        }
    }

    // What there is.

    /// Returns a tile, if it is there.
    pub fn node(&self, at: u32) -> Option<Node> {
        match self.nodes.get(at as usize) {
            Some(node) => *node,
            None => None,
        }
    }

    /// Returns a strand by its number, or one that is nowhere.
    pub fn wire(&self, at: u32) -> Wire {
        match self.wires.get(at as usize) {
            Some(wire) => *wire,
            None => NO_WIRE,
        }
    }

    /// Returns a strand, or one that is nowhere.
    pub fn wire_of(&self, strand: Option<u32>) -> Wire {
        match strand {
            Some(strand) => self.wire(strand),
            None => NO_WIRE,
        }
    }

    /// Returns the tile that uses a strand.
    pub fn user(&self, strand: u32) -> Option<u32> {
        self.wire(strand).strand.user
    }

    /// Returns the strands of a tile, if it is a Cross.
    pub fn crossing(&self, at: Option<u32>) -> Option<Crossing> {
        let Some(at) = at else {
            return None;
        };
        let Some(Node { tile, choice, .. }) = self.node(at) else {
            return None;
        };
        match (tile.kind, pair_of(tile.ins), pair_of(tile.outs)) {
            (TileKind::Cross, Some(ins), Some(outs)) => Some(Crossing {
                at,
                choice,
                ins,
                outs,
            }),
            _ => None,
        }
    }

    // Changes.

    /// Sets what is at a tile's number.
    pub fn set_node(&mut self, at: u32, node: Option<Node>) {
        if (at as usize) < self.nodes.len() {
            let old = self.node(at);
            add(&mut self.old, Old::Node(at, old), &mut self.is_refused);
            self.weigh(old, node);
            set(&mut self.nodes, at, node);
        }
    }

    fn weigh(&mut self, old: Option<Node>, new: Option<Node>) {
        if let Some(node) = old {
            self.weight = self.weight.saturating_sub(node.weight as u64);
        }
        if let Some(node) = new {
            self.weight = self.weight.saturating_add(node.weight as u64);
        }
    }

    /// Sets a strand, if it is there.
    pub fn set_wire(&mut self, strand: Option<u32>, wire: Wire) {
        if let Some(at) = strand {
            let old = Old::Wire(at, self.wire(at));
            add(&mut self.old, old, &mut self.is_refused);
            set(&mut self.wires, at, wire);
        }
    }

    fn set_user(&mut self, strand: Option<u32>, at: u32) {
        let mut wire = self.wire_of(strand);
        wire.strand.user = Some(at);
        self.set_wire(strand, wire);
    }

    fn set_maker(&mut self, strand: Option<u32>, at: u32) {
        let mut wire = self.wire_of(strand);
        wire.strand.maker = Some(at);
        self.set_wire(strand, wire);
    }

    /// Puts a tile at a number.
    pub fn put(&mut self, at: u32, tile: Tile, choice: Choice) {
        self.set_user(tile.ins[0], at);
        self.set_user(tile.ins[1], at);
        self.set_maker(tile.outs[0], at);
        self.set_maker(tile.outs[1], at);
        let node = Node {
            tile,
            choice,
            weight: 0,
        };
        self.set_node(at, Some(node));
        self.touch(at);
    }

    // Keeping and undoing.

    /// Keeps what was changed.
    pub fn keep(&mut self) {
        self.old.clear();
        self.old_weight = self.weight;
    }

    /// Undoes all changes since the last ones that were kept.
    pub fn undo(&mut self) {
        for _ in 0..self.old.len() {
            match self.old.pop() {
                Some(Old::Node(at, node)) => set(&mut self.nodes, at, node),
                Some(Old::Wire(at, wire)) => set(&mut self.wires, at, wire),
                None => {}
            }
        }
        self.todo.clear();
        self.weight = self.old_weight;
    }
}
