// A tile takes the place of its strands' nodes.

use crate::plane::{Node, Plane};
use crate::shapes::{depth, lower_row, upper_row, wide};
use strand_core::{Tile, TileKind};

/// Columns of nodes that a tile takes or changes, from that of its entries on.
pub const COLUMNS: u32 = 6;

/// Where a tile was put: the nodes of its upper entry and of its lower one, and that of a fork's lower exit.
#[derive(Clone, Copy)]
pub struct Placing {
    pub upper: Option<u32>,
    pub lower: Option<u32>,
    pub exit: Option<u32>,
}

// A strand's node in a column of a tile, so many rows south of the one before it, or behind the tile, where the strand
// goes north.
fn placed(old: Node, kind: TileKind, row: i32, step: i32, column: u32) -> Node {
    let beyond = column.saturating_sub(wide(kind));
    let mut node = old;
    node.row = row.saturating_sub_unsigned(beyond).max(0);
    if beyond > 0 {
        node.least_step = -1;
        node.most_step = 1;
    } else if column > 0 {
        node.least_step = step;
        node.most_step = step;
    }
    node
}

fn upper_node(tile: Tile, old: Node, row: i32, column: u32) -> Node {
    let south = upper_row(tile.kind, column.min(wide(tile.kind)));
    let step = south.saturating_sub(upper_row(tile.kind, column.saturating_sub(1)));
    let mut node = placed(old, tile.kind, row.saturating_add(south), step, column);
    node.depth = depth(tile.kind, column);
    if column == 0 && tile.ins[1].is_some() {
        node.least_step = 0;
        node.most_step = 1;
    }
    if column >= wide(tile.kind) {
        node.strand = tile.outs[0].unwrap_or(node.strand);
    }
    node
}

fn lower_node(tile: Tile, old: Node, row: i32, column: u32) -> Node {
    let south = lower_row(tile.kind, column.min(wide(tile.kind)));
    let step = south.saturating_sub(lower_row(tile.kind, column.saturating_sub(1)));
    let mut node = placed(old, tile.kind, row.saturating_add(south), step, column);
    if column == 0 {
        node.least_step = -1;
        node.most_step = 0;
        node.tie = Some(south);
    }
    if column >= wide(tile.kind) {
        node.strand = tile.outs[1].unwrap_or(node.strand);
    }
    node
}

impl Plane {
    fn place_upper(&mut self, tile: Tile, first: Option<u32>, row: i32) {
        let mut number = first;
        for column in 0..COLUMNS {
            let Some(node) = self.node(number) else {
                return;
            };
            self.change(number, upper_node(tile, node, row, column));
            number = node.east;
        }
    }

    fn place_lower(&mut self, tile: Tile, first: Option<u32>, row: i32) {
        let mut number = first;
        for column in 0..COLUMNS {
            let Some(node) = self.node(number) else {
                return;
            };
            self.change(number, lower_node(tile, node, row, column));
            number = node.east;
        }
    }

    // Ends the lower strand of a tile before the exit.
    fn end_lower(&mut self, kind: TileKind, first: Option<u32>) {
        let last = self.east_of(first, wide(kind).saturating_sub(1));
        let mut number = self.east_of(last, 1);
        self.lead(last, None);
        for _ in wide(kind)..COLUMNS {
            let Some(node) = self.node(number) else {
                return;
            };
            self.join(node.up, node.down);
            number = node.east;
        }
    }

    // Begins the lower strand of a fork at the exits, whose upper strand has a node in the column of the entry. Returns
    // the node of the lower exit, which is tied to the upper one.
    fn begin_lower(
        &mut self,
        kind: TileKind,
        strand: u32,
        upper: Option<u32>,
        row: i32,
    ) -> Option<u32> {
        let south = lower_row(kind, wide(kind));
        let mut above = self.east_of(upper, wide(kind));
        let (mut west, mut exit) = (None, None);
        for column in wide(kind)..COLUMNS {
            let beyond = column.saturating_sub(wide(kind));
            let row = row.saturating_add(south).saturating_sub_unsigned(beyond);
            let number = self.insert(strand, row.max(0), above, west);
            exit = exit.or(Some(number));
            west = Some(number);
            above = self.east_of(above, 1);
        }
        if let Some(node) = self.node(exit) {
            let tie = Some(south.saturating_sub(upper_row(kind, wide(kind))));
            self.change(exit, Node { tie, ..node });
        }
        exit
    }

    // Lets a node wait, and the one above it.
    fn wait_with_above(&mut self, number: Option<u32>) {
        self.wait(number);
        if let Some(node) = self.node(number) {
            self.wait(node.up);
        }
    }

    // Lets all nodes wait that a tile took, and those at the west of them.
    fn wait_all(&mut self, kind: TileKind, placing: Placing) {
        let (mut upper, mut lower) = (placing.upper, placing.lower);
        self.wait_with_above(self.west_of(upper, 1));
        self.wait_with_above(self.west_of(lower, 1));
        for column in 0..COLUMNS {
            if column == wide(kind) {
                lower = lower.or(placing.exit);
            }
            self.wait_with_above(upper);
            self.wait_with_above(lower);
            upper = self.east_of(upper, 1);
            lower = self.east_of(lower, 1);
        }
    }

    // Puts a tile into the place of its strands' nodes, and lets all wait that may have to be pushed. The easternmost
    // node of the upper strand is told.
    fn place(&mut self, tile: Tile, last: u32) -> Placing {
        let last = Some(last);
        let mut placing = Placing {
            upper: self.west_of(last, COLUMNS - 1),
            lower: None,
            exit: None,
        };
        let row = match self.node(placing.upper) {
            Some(node) => node.row,
            None => 0,
        };
        if tile.ins[1].is_some() {
            placing.lower = self.west_of(self.down_of(last), COLUMNS - 1);
            if !matches!(tile.kind, TileKind::Cross) {
                self.end_lower(tile.kind, placing.lower);
            }
            self.place_lower(tile, placing.lower, row);
        }
        self.place_upper(tile, placing.upper, row);
        if let (None, Some(strand)) = (tile.ins[1], tile.outs[1]) {
            placing.exit = self.begin_lower(tile.kind, strand, placing.upper, row);
        }
        self.wait_all(tile.kind, placing);
        placing
    }

    /// Puts a tile into the place of its strands' nodes, of which the upper strand's easternmost one is told, if all
    /// rows are north of row `most` then.
    pub fn try_place(
        &mut self,
        tile: Tile,
        last: u32,
        most: i32,
        patience: usize,
    ) -> Option<Placing> {
        let count = self.nodes.len();
        let placing = self.place(tile, last);
        if self.settle(most, patience) {
            self.keep();
            Some(placing)
        } else {
            self.undo(count);
            None
        }
    }
}
