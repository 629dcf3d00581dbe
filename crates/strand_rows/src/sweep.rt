// Tiles are placed column by column, each as soon as its strands come to it and the rows have room for it.

use crate::placing::{COLUMNS, Placing};
use crate::plane::{Node, Plane};
use crate::shapes::wide;
use lists::OutOfMemory;
use std::alloc::Global;
use strand_core::{StrandCircuit, Tile, TileKind, add, at, put, set, widen};

// How many nodes are looked at for a tile that is tried for the first time, at most; each time twice as many, so often.
const PATIENCE: usize = 1024;

const MORE_PATIENCE: u32 = 3;

// Columns by which forks come earlier than they have to, where they come late.
const EARLIER: u32 = 60;

// After so many columns without a tile there are more rows.
const STALLED: u32 = 64;

const MORE_ROWS: i32 = 8;

// So many strands abreast are a crowd.
const CROWD: u32 = 128;

// In a crowd that keeps room, a tile that was tried more often than so is tried in every sixteenth column alone.
const OFTEN: u32 = 6;

// There, after each so many columns without a tile more nodes are looked at, so many times as many at most.
const SOON_STALLED: u32 = 8;

const MOST_PATIENCE: u32 = 32;

// A sweep is given up after so many columns of a crowd without a tile, or after so many nodes that were looked at.
const MOST_STALLED: u32 = 256;

const MOST_LOOKED_AT: u64 = 500_000_000;

/// How a circuit is placed: all rows are to be north of row `most`, though more are taken where nothing else helps; if
/// `columns` are told, forks come no earlier than they have to in about so many. In a crowd the strands keep `room` rows
/// more apart than they must where they can, so that a tile pushes few of them.
#[derive(Clone, Copy)]
pub struct Plan {
    pub most: i32,
    pub columns: Option<u32>,
    pub room: i32,
}

/// The tiles of a circuit while they are placed.
#[derive(Drop)]
pub struct Sweep {
    pub plane: Plane,
    /// The northernmost node of the easternmost column.
    top: Option<u32>,
    column: u32,
    plan: Plan,
    longest: u32,
    /// The column and the node of each tile's upper entry, and of each strand's first cell.
    pub tiles: Vec<(u32, u32)>,
    pub strands: Vec<(u32, u32)>,
    // how often each tile was tried
    tries: Vec<u32>,
    left: usize,
    stalled: u32,
    is_crowded: bool,
    ready: Vec<(u32, u32, u32)>,
    is_refused: bool,
}

/// Returns the longest tail.
pub fn longest(tails: &[u32]) -> u32 {
    let mut longest = 0;
    for tail in tails {
        longest = longest.max(*tail);
    }
    longest
}

/// Returns the column and the node at a place.
pub fn place_at(places: &[(u32, u32)], number: u32) -> (u32, u32) {
    if (number as usize) < places.len() {
        places[number as usize]
    } else {
        (0, 0)
    }
}

fn is_bump(circuit: &StrandCircuit, tile: Option<u32>) -> bool {
    let Some(tile) = tile else {
        return false;
    };
    match circuit.tiles.get(tile as usize) {
        Some(tile) => matches!(tile.kind, TileKind::Bump(_)),
        None => false,
    }
}

// Columns from a strand's first cell to its last one, at least: a wire has a cell of its own.
fn least_length(circuit: &StrandCircuit, strand: u32) -> u32 {
    let Some(own) = circuit.strands.get(strand as usize) else {
        return 2;
    };
    if own.maker.is_some() && (is_bump(circuit, own.maker) || is_bump(circuit, own.user)) {
        1
    } else {
        2
    }
}

impl Sweep {
    /// Returns a sweep that places tiles with these tails by a plan, and has placed none.
    pub fn new(alloc: Global, tails: &[u32], plan: Plan) -> Sweep {
        Sweep {
            plane: Plane::new(alloc),
            top: None,
            column: 0,
            plan,
            longest: longest(tails),
            tiles: Vec::new(alloc),
            strands: Vec::new(alloc),
            tries: Vec::new(alloc),
            left: tails.len(),
            stalled: 0,
            is_crowded: false,
            ready: Vec::new(alloc),
            is_refused: false,
        }
    }

    fn make_room(&mut self, circuit: &StrandCircuit) {
        let (tiles, strands) = (circuit.tiles.len(), circuit.strands.len());
        widen(&mut self.tiles, tiles, (0, 0), &mut self.is_refused);
        widen(&mut self.tries, tiles, 0, &mut self.is_refused);
        widen(&mut self.strands, strands, (0, 0), &mut self.is_refused);
    }

    // Adds a node to the easternmost column, at its top or below another one, and returns its number.
    fn add_below(
        &mut self,
        above: Option<u32>,
        west: Option<u32>,
        strand: u32,
        row: i32,
    ) -> Option<u32> {
        let number = Some(self.plane.insert(strand, row, above, west));
        self.plane.wait(number);
        if above.is_none() {
            self.top = number;
        }
        number
    }

    // Pushes nodes south as the easternmost column asks for.
    fn settle(&mut self) {
        self.plane.settle(i32::MAX, usize::MAX);
        self.plane.keep();
    }

    // Puts the strands of the west into the first column.
    fn begin(&mut self, circuit: &StrandCircuit) {
        let mut above = None;
        let mut row = 0i32;
        for end in &circuit.west {
            if let Some(strand) = end.strand {
                above = self.add_below(above, None, strand, row);
                set(&mut self.strands, strand, (0, above.unwrap_or(0)));
                row = row.saturating_add(2);
            }
        }
        self.plan.most = self.plan.most.max(row.saturating_add(MORE_ROWS));
        self.settle();
    }

    fn keeps_room(&self) -> bool {
        self.is_crowded && self.plan.room > 0
    }

    // The row of a strand's next cell, where the rows from one on are free: further north, if there is room.
    fn next_row(&self, row: i32, free: i32) -> i32 {
        if self.keeps_room() && row <= free.saturating_add(self.plan.room) {
            row.max(free)
        } else {
            row.saturating_sub(1).max(free)
        }
    }

    // Leads all strands a column further east.
    fn extend(&mut self) {
        let mut west = self.top;
        let mut above = None;
        let mut free = 0i32;
        let mut abreast = 0u32;
        self.top = None;
        for _ in 0..self.plane.nodes.len() {
            let Some(node) = self.plane.node(west) else {
                break;
            };
            let row = self.next_row(node.row, free);
            above = self.add_below(above, west, node.strand, row);
            free = row.max(node.row).saturating_add(2);
            west = node.down;
            abreast = abreast.saturating_add(1);
        }
        self.is_crowded = abreast >= CROWD;
        self.settle();
    }

    // Whether a strand is long enough to enter the tile that uses it.
    fn is_long(&self, circuit: &StrandCircuit, strand: u32) -> bool {
        let (column, _) = place_at(&self.strands, strand);
        column.saturating_add(least_length(circuit, strand)) <= self.column
    }

    // Whether the strands of a tile stand one below the other from a node on, and are long enough.
    fn is_ready(&self, circuit: &StrandCircuit, tile: Tile, node: Node) -> bool {
        if tile.ins[0] != Some(node.strand) || !self.is_long(circuit, node.strand) {
            return false;
        }
        match (tile.ins[1], self.plane.node(node.down)) {
            (None, _) => true,
            (Some(lower), Some(below)) => below.strand == lower && self.is_long(circuit, lower),
            (Some(_), None) => false,
        }
    }

    // Finds the tiles whose strands are there, those with the longest tails first.
    fn find_ready(&mut self, circuit: &StrandCircuit, tails: &[u32]) {
        self.ready.clear();
        let mut upper = self.top;
        for _ in 0..self.plane.nodes.len() {
            let (Some(last), Some(node)) = (upper, self.plane.node(upper)) else {
                break;
            };
            self.add_ready(circuit, tails, node, last);
            upper = node.down;
        }
        self.ready.as_mut_slice().sort_unstable();
    }

    // Adds the tile that uses the strand of a node as its upper one, if its strands are there.
    fn add_ready(&mut self, circuit: &StrandCircuit, tails: &[u32], node: Node, last: u32) {
        let user = match circuit.strands.get(node.strand as usize) {
            Some(own) => own.user,
            None => None,
        };
        let Some(number) = user else {
            return;
        };
        let Some(tile) = circuit.tiles.get(number as usize) else {
            return;
        };
        if self.is_ready(circuit, *tile, node) {
            let rank = u32::MAX.saturating_sub(at(tails, number));
            add(&mut self.ready, (rank, last, number), &mut self.is_refused);
        }
    }

    // Notes the first cell of a strand.
    fn note_strand(&mut self, strand: Option<u32>, column: u32, node: Option<u32>) {
        if let (Some(strand), Some(node)) = (strand, node) {
            set(&mut self.strands, strand, (column, node));
        }
    }

    // Notes where a tile was placed, and where its strands begin.
    fn note(&mut self, number: u32, tile: Tile, placing: Placing) {
        let (wide, entry) = (wide(tile.kind), placing.upper.unwrap_or(0));
        set(&mut self.tiles, number, (self.column, entry));
        let column = self.column.saturating_add(wide);
        let upper = self.plane.east_of(placing.upper, wide);
        let lower = self.plane.east_of(placing.lower, wide);
        self.note_strand(tile.outs[0], column, upper);
        self.note_strand(tile.outs[1], column, lower.or(placing.exit));
        self.left = self.left.saturating_sub(1);
        self.stalled = 0;
    }

    // How many nodes are looked at for a tile that was tried so often, at most.
    fn patience(&self, tries: u32) -> usize {
        let patience = match tries {
            0 => PATIENCE,
            1 => PATIENCE * 2,
            2 => PATIENCE * 4,
            _ => PATIENCE * 8,
        };
        if !self.keeps_room() {
            return patience;
        }
        let more = (self.stalled / SOON_STALLED).clamp(1, MOST_PATIENCE);
        patience.saturating_mul(more as usize)
    }

    // Places a tile whose upper strand has this node in the easternmost column, if it is time and there is room.
    fn try_tile(&mut self, number: u32, tile: Tile, tails: &[u32], last: u32) {
        if !self.is_time(number, tile, tails) {
            return;
        }
        let tries = at(&self.tries, number);
        put(&mut self.tries, number, tries.saturating_add(1));
        let (most, patience) = (self.plan.most, self.patience(tries));
        if let Some(placing) = self.plane.try_place(tile, last, most, patience) {
            self.note(number, tile, placing);
        }
    }

    // Whether it is a tile's turn in this column: if it was tried often already, only in every fourth one.
    fn is_turn(&self, number: u32) -> bool {
        let (tries, turn) = (at(&self.tries, number), number ^ self.column);
        if self.keeps_room() && tries > OFTEN {
            turn % 16 == 0
        } else {
            tries <= MORE_PATIENCE || turn % 4 == 0
        }
    }

    // Whether a tile is tried in this column.
    fn is_time(&self, number: u32, tile: Tile, tails: &[u32]) -> bool {
        let is_turn = self.is_turn(number);
        match (tile.kind, self.plan.columns) {
            (TileKind::Fork, Some(columns)) => is_turn && self.is_due(at(tails, number), columns),
            _ => is_turn,
        }
    }

    // Whether a tile with this tail has to come soon, if there are about so many columns.
    fn is_due(&self, tail: u32, columns: u32) -> bool {
        let left = (tail as u64).saturating_mul(columns as u64) / (self.longest as u64).max(1);
        let soon = left
            .saturating_add(self.column as u64)
            .saturating_add(EARLIER as u64);
        soon >= columns as u64
    }

    // Places tiles in a column, as many as there is room for.
    fn place_ready(&mut self, circuit: &StrandCircuit, tails: &[u32]) {
        self.find_ready(circuit, tails);
        for place in 0..self.ready.len() {
            let (_, last, number) = self.ready.get(place).copied().unwrap_or((0, 0, 0));
            if let Some(tile) = circuit.tiles.get(number as usize) {
                self.try_tile(number, *tile, tails, last);
            }
        }
        self.stalled = self.stalled.saturating_add(1);
        if self.stalled > STALLED {
            self.plan.most = self.plan.most.saturating_add(MORE_ROWS);
        }
    }

    // Whether it would take too long to place the tiles that are left.
    fn is_hopeless(&self) -> bool {
        self.is_crowded && self.stalled > MOST_STALLED || self.plane.work > MOST_LOOKED_AT
    }

    /// Places all tiles, in so many columns at most. Returns whether it could.
    pub fn run(
        &mut self,
        circuit: &StrandCircuit,
        tails: &[u32],
        columns: u32,
    ) -> Result<bool, OutOfMemory> {
        self.make_room(circuit);
        self.begin(circuit);
        for _ in 1..COLUMNS {
            self.extend();
        }
        for _ in 0..columns {
            if self.is_refused || self.plane.is_refused {
                return Err(OutOfMemory::NoMemory);
            }
            if self.left == 0 {
                return Ok(true);
            }
            if self.is_hopeless() {
                break;
            }
            self.place_ready(circuit, tails);
            self.extend();
            self.column = self.column.saturating_add(1);
        }
        Ok(false)
    }

    /// Returns the column in which strands go out at the east.
    pub fn last_column(&self, circuit: &StrandCircuit) -> u32 {
        let mut last = 0u32;
        for end in &circuit.east {
            if let Some(strand) = end.strand {
                let (column, _) = place_at(&self.strands, strand);
                last = last.max(column.saturating_add(2));
            }
        }
        last
    }
}
