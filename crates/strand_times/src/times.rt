// When signals come, and what a circuit weighs.
use crate::waits::{bumps_of, waits_at};
use crate::web::{Node, Web, Wire};
use std::cmp::Reverse;
use strand_core::{East, End, Tile, TileKind};

// What a column weighs, and what a crossing, a bump, and a generation that a signal waits.
const COLUMN: u64 = 1000;

const CROSS: u32 = 30;

const BUMP: u32 = 20;

const GENERATION: u32 = 2;

// What a tile weighs with the bumps before it, where its signals wait so many generations.
fn weight_of(kind: TileKind, first: u32, second: u32) -> u32 {
    let bumps = bumps_of(first).saturating_add(bumps_of(second));
    let generations = first.saturating_add(second);
    let waiting = bumps
        .saturating_mul(BUMP)
        .saturating_add(generations.saturating_mul(GENERATION));
    match kind {
        TileKind::Cross => waiting.saturating_add(CROSS),
        _ => waiting,
    }
}

// A strand behind bumps that take so many generations.
fn delayed(mut wire: Wire, wait: u32) -> Wire {
    wire.strand.late = wire.strand.late.saturating_add(wait);
    wire.level = wire.level.saturating_add(bumps_of(wait));
    wire
}

impl Web {
    /// Counts work.
    pub fn count(&mut self, steps: u64) {
        self.work = self.work.saturating_add(steps);
    }

    /// Notes that a tile's times are to be computed.
    pub fn touch(&mut self, at: u32) {
        if let Some(node) = self.node(at) {
            let level = self.wire_of(node.tile.outs[0]).level;
            if self.todo.push((Reverse(level), at)).is_err() {
                self.is_refused = true;
            }
        }
    }

    /// Sets how late a strand is, and how many columns there are before its end.
    pub fn set_times(&mut self, strand: Option<u32>, late: u32, level: u32) {
        let mut wire = self.wire_of(strand);
        if wire.strand.late == late && wire.level == level {
            return;
        }
        wire.strand.late = late;
        wire.level = level;
        self.set_wire(strand, wire);
        if let Some(user) = wire.strand.user {
            self.touch(user);
        }
    }

    /// Returns how many generations the upper signal of a tile waits, and the lower one.
    pub fn waits(&self, node: Node) -> (u32, u32) {
        let upper = self.wire_of(node.tile.ins[0]).strand.late;
        let lower = self.wire_of(node.tile.ins[1]).strand.late;
        waits_at(node.tile.kind, upper, lower, node.choice)
    }

    // Computes the times of the strands behind a tile.
    fn update(&mut self, at: u32) {
        self.count(1);
        let Some(mut node) = self.node(at) else {
            return;
        };
        let (first, second) = self.waits(node);
        let weight = weight_of(node.tile.kind, first, second);
        if weight != node.weight {
            node.weight = weight;
            self.set_node(at, Some(node));
        }
        let upper = delayed(self.wire_of(node.tile.ins[0]), first);
        let lower = delayed(self.wire_of(node.tile.ins[1]), second);
        self.pass(node.tile, upper, lower);
    }

    // Computes the times of the strands behind a tile from those before it.
    fn pass(&mut self, tile: Tile, upper: Wire, lower: Wire) {
        let level = upper.level.max(lower.level).saturating_add(1);
        let late = match tile.kind {
            TileKind::Cross => lower.strand.late,
            _ => upper.strand.late,
        };
        self.set_times(tile.outs[0], late, level);
        self.set_times(tile.outs[1], upper.strand.late, level);
    }

    /// Computes the times of all tiles, which stand in order.
    pub fn update_all(&mut self) {
        for i in 0..self.nodes.len() {
            self.update(u32::try_from(i).unwrap_or(u32::MAX));
        }
    }

    /// Computes all times that are to be computed. Returns whether these came to an end.
    pub fn settle(&mut self) -> bool {
        let most = self.nodes.len().saturating_mul(8).saturating_add(64);
        let mut last = u32::MAX;
        for _ in 0..most {
            let Some((_, at)) = self.todo.pop() else {
                return true;
            };
            if at != last {
                self.update(at);
                last = at;
            }
        }
        false
    }

    /// Returns how late the latest output is.
    pub fn latest(&self) -> u32 {
        let mut latest = 0;
        for end in &self.east {
            if let East::Output(_) = end.is {
                latest = self.wire_of(end.strand).strand.late.max(latest);
            }
        }
        latest
    }

    /// Returns how many generations an output waits for the latest one.
    pub fn wait_at_east(&self, end: End<East>, latest: u32) -> u32 {
        match end.is {
            East::Output(_) => latest.saturating_sub(self.wire_of(end.strand).strand.late),
            East::Register(_) => 0,
        }
    }

    /// Returns what the whole circuit weighs.
    pub fn cost(&self) -> u64 {
        let latest = self.latest();
        let mut columns = 0;
        let mut weight = self.weight;
        for end in &self.east {
            let wait = self.wait_at_east(*end, latest);
            columns = delayed(self.wire_of(end.strand), wait).level.max(columns);
            weight = weight.saturating_add(weight_of(TileKind::Fork, wait, 0) as u64);
        }
        COLUMN.saturating_mul(columns as u64).saturating_add(weight)
    }
}
