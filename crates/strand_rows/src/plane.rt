// Rows of cells under bounds: each as far north as the others let it.

use std::alloc::Global;
use strand_core::{add, set};

// Rows from a cell to the one of another wire that is nearest to it, in the same column or in the next.
const APART: i32 = 2;

/// A cell of a strand, or the cells of a tile in a column that belong to the strand of an entry. Its row is that of the
/// northernmost cell, and the southernmost one is `depth` rows further south.
#[derive(Clone, Copy)]
pub struct Node {
    pub strand: u32,
    pub row: i32,
    pub depth: i32,
    /// How many rows south of the node at the west it is, at least and at most.
    pub least_step: i32,
    pub most_step: i32,
    /// How many rows south of the node above it is, if both are entries of one tile.
    pub tie: Option<i32>,
    pub up: Option<u32>,
    pub down: Option<u32>,
    pub west: Option<u32>,
    pub east: Option<u32>,
}

/// Nodes in columns, and what has changed since the last change that was kept.
#[derive(Drop)]
pub struct Plane {
    pub nodes: Vec<Node>,
    is_waiting: Vec<bool>,
    waiting: Vec<u32>,
    // nodes that were changed or pushed, and what they were
    changed: Vec<(u32, Node)>,
    // the southernmost row into which a node was pushed
    south: i32,
    /// How many nodes have been looked at.
    pub work: u64,
    /// Whether memory was refused: then something is missing here.
    pub is_refused: bool,
}

/// Returns the node of a number, if there is one.
pub fn node_at(nodes: &[Node], number: Option<u32>) -> Option<Node> {
    match number {
        Some(number) => nodes.get(number as usize).copied(),
        None => None,
    }
}

impl Plane {
    pub fn new(alloc: Global) -> Plane {
        Plane {
            nodes: Vec::new(alloc),
            is_waiting: Vec::new(alloc),
            waiting: Vec::new(alloc),
            changed: Vec::new(alloc),
            south: i32::MIN,
            work: 0,
            is_refused: false,
        }
    }

    pub fn node(&self, number: Option<u32>) -> Option<Node> {
        node_at(&self.nodes, number)
    }

    /// Returns the node so many columns west of one.
    pub fn west_of(&self, number: Option<u32>, columns: u32) -> Option<u32> {
        let mut found = number;
        for _ in 0..columns {
            found = match self.node(found) {
                Some(node) => node.west,
                None => None,
            };
        }
        found
    }

    /// Returns the node so many columns east of one.
    pub fn east_of(&self, number: Option<u32>, columns: u32) -> Option<u32> {
        let mut found = number;
        for _ in 0..columns {
            found = match self.node(found) {
                Some(node) => node.east,
                None => None,
            };
        }
        found
    }

    /// Returns the node below one in its column.
    pub fn down_of(&self, number: Option<u32>) -> Option<u32> {
        match self.node(number) {
            Some(node) => node.down,
            None => None,
        }
    }

    /// Adds a node of a strand below one of its column and behind one, and returns its number.
    pub fn insert(&mut self, strand: u32, row: i32, up: Option<u32>, west: Option<u32>) -> u32 {
        let number = u32::try_from(self.nodes.len()).unwrap_or(u32::MAX);
        let down = self.down_of(up);
        let node = Node {
            strand,
            row,
            depth: 0,
            least_step: -1,
            most_step: 1,
            tie: None,
            up,
            down,
            west,
            east: None,
        };
        add(&mut self.nodes, node, &mut self.is_refused);
        add(&mut self.is_waiting, false, &mut self.is_refused);
        self.join(up, Some(number));
        self.join(Some(number), down);
        self.lead(west, Some(number));
        number
    }

    /// Makes two nodes neighbours in their column.
    pub fn join(&mut self, upper: Option<u32>, lower: Option<u32>) {
        if let Some(node) = self.node(upper) {
            self.change(
                upper,
                Node {
                    down: lower,
                    ..node
                },
            );
        }
        if let Some(node) = self.node(lower) {
            self.change(lower, Node { up: upper, ..node });
        }
    }

    /// Lets a strand go on from a node to another one, or to none.
    pub fn lead(&mut self, number: Option<u32>, east: Option<u32>) {
        if let Some(node) = self.node(number) {
            self.change(number, Node { east, ..node });
        }
    }

    /// Changes a node.
    pub fn change(&mut self, number: Option<u32>, node: Node) {
        if let (Some(place), Some(old)) = (number, self.node(number)) {
            add(&mut self.changed, (place, old), &mut self.is_refused);
            set(&mut self.nodes, place, node);
        }
    }

    /// Lets the bounds from a node be looked at.
    pub fn wait(&mut self, number: Option<u32>) {
        let number = number.unwrap_or(u32::MAX);
        if (number as usize) < self.is_waiting.len() && !self.is_waiting[number as usize] {
            add(&mut self.waiting, number, &mut self.is_refused);
            set(&mut self.is_waiting, number, true);
        }
    }

    // Pushes a node south if it is north of a row.
    fn push(&mut self, number: Option<u32>, row: i32) {
        if let Some(node) = self.node(number) {
            if row > node.row {
                self.change(number, Node { row, ..node });
                self.wait(number);
                self.south = self.south.max(row.saturating_add(node.depth));
            }
        }
    }

    // Pushes the node below one, and those beside that.
    fn push_below(&mut self, node: Node) {
        let Some(below) = self.node(node.down) else {
            return;
        };
        let free = node.row.saturating_add(node.depth).saturating_add(APART);
        let row = match below.tie {
            Some(tie) => node.row.saturating_add(tie),
            None => free,
        };
        self.push(node.down, row);
        self.push(below.west, free);
        self.push(below.east, free);
    }

    // Pushes a node's neighbours of its strand, and the node above if both are entries of one tile.
    fn push_beside(&mut self, node: Node) {
        let step = match self.node(node.east) {
            Some(east) => east.least_step,
            None => 0,
        };
        self.push(node.east, node.row.saturating_add(step));
        self.push(node.west, node.row.saturating_sub(node.most_step));
        if let Some(tie) = node.tie {
            self.push(node.up, node.row.saturating_sub(tie));
        }
    }

    // Looks at nodes that wait, and at those that these push, so many at most. Returns whether all are north of a row.
    fn settle_waiting(&mut self, most: i32, patience: usize) -> bool {
        for turn in 0..patience {
            let Some(number) = self.waiting.get(turn).copied() else {
                return true;
            };
            set(&mut self.is_waiting, number, false);
            self.work = self.work.saturating_add(1);
            if let Some(node) = self.node(Some(number)) {
                self.push_below(node);
                self.push_beside(node);
            }
            if self.south >= most {
                return false;
            }
        }
        false
    }

    /// Pushes nodes south as the bounds of those that wait ask for. Returns whether all are north of row `most` then,
    /// and not too many had to be looked at.
    pub fn settle(&mut self, most: i32, patience: usize) -> bool {
        self.south = i32::MIN;
        let is_settled = self.settle_waiting(most, patience);
        for number in &self.waiting {
            set(&mut self.is_waiting, *number, false);
        }
        self.waiting.clear();
        is_settled
    }

    /// Keeps all changes.
    pub fn keep(&mut self) {
        self.changed.clear();
    }

    /// Takes back what has changed since changes were kept, when there were so many nodes.
    pub fn undo(&mut self, count: usize) {
        for _ in 0..self.changed.len() {
            if let Some((number, node)) = self.changed.pop() {
                set(&mut self.nodes, number, node);
            }
        }
        self.nodes.truncate(count);
        self.is_waiting.truncate(count);
    }
}
