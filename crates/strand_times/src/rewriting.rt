// Three strands that cross in another order, and rewritings that leave fewer crossings.
use crate::side::Side;
use crate::waits::Choice;
use crate::web::{Crossing, Node, Web, pair_of};
use strand_core::{Tile, TileKind, add};

/// Three crossings of three strands, of which the first strand crosses the second one and then the third.
#[derive(Clone, Copy)]
pub struct Braid {
    pub side: Side,
    pub first: Crossing,
    pub second: Crossing,
    pub third: Crossing,
}

// Two crossings by which a strand passes both inputs of a gate, or both copies of a fork.
#[derive(Clone, Copy)]
struct Passing {
    side: Side,
    first: Crossing,
    second: Crossing,
}

fn both(pair: [u32; 2]) -> [Option<u32>; 2] {
    [Some(pair[0]), Some(pair[1])]
}

fn cross(ins: [u32; 2], outs: [u32; 2]) -> Tile {
    Tile {
        kind: TileKind::Cross,
        ins: both(ins),
        outs: both(outs),
    }
}

// A gate or fork after the strand that passed it crosses on its other side.
fn moved(tile: Tile, passing: Passing) -> Tile {
    let (side, first, second) = (passing.side, passing.first, passing.second);
    let (ins, outs) = match tile.kind {
        TileKind::Fork => (
            [tile.outs[0], None],
            both(side.pair(side.near(first.outs), side.near(second.outs))),
        ),
        _ => (
            both(side.pair(side.far(first.ins), side.far(second.ins))),
            [tile.ins[0], None],
        ),
    };
    Tile {
        kind: tile.kind,
        ins,
        outs,
    }
}

impl Web {
    /// Returns the three crossings of which a Cross is the first, if the strand from a side crosses two others there.
    pub fn braid_at(&self, at: u32, side: Side) -> Option<Braid> {
        let Some(first) = self.crossing(Some(at)) else {
            return None;
        };
        let second = self.crossing(self.user(side.far(first.outs)));
        let third = self.crossing(self.user(side.near(first.outs)));
        let (Some(second), Some(third)) = (second, third) else {
            return None;
        };
        let is_braid = side.near(second.ins) == side.far(first.outs)
            && side.near(third.ins) == side.near(first.outs)
            && side.far(third.ins) == side.near(second.outs);
        if !is_braid {
            return None;
        }
        Some(Braid {
            side,
            first,
            second,
            third,
        })
    }

    /// Crosses the other two strands first. At each Cross the signal waits that is told.
    pub fn turn(&mut self, braid: Braid, one: Choice, two: Choice, three: Choice) {
        let (side, first, second, third) = (braid.side, braid.first, braid.second, braid.third);
        let [near, far] = first.outs;
        let middle = side.near(second.outs);
        let ins = side.pair(side.far(first.ins), side.far(second.ins));
        self.put(first.at, cross(ins, side.pair(near, far)), one);
        let outs = side.pair(side.near(third.outs), middle);
        self.put(
            second.at,
            cross(side.pair(side.near(first.ins), near), outs),
            two,
        );
        let outs = side.pair(side.far(third.outs), side.far(second.outs));
        self.put(third.at, cross(side.pair(middle, far), outs), three);
    }

    /// Rewrites a gate or fork that a strand passes: the strand crosses once, on its other side. Then the tiles around
    /// it are near.
    pub fn rewrite(&mut self, at: u32) {
        let Some(node) = self.node(at) else {
            return;
        };
        let passing = match self.passing_at(node.tile, Side::Above) {
            Some(passing) => Some(passing),
            None => self.passing_at(node.tile, Side::Below),
        };
        if let Some(passing) = passing {
            self.pass_tile(at, node.tile, passing);
            self.look_around(at);
            self.look_around(passing.first.at);
        }
    }

    /// Notes that a tile is near, if there is one.
    pub fn note_near(&mut self, at: Option<u32>) {
        if let Some(at) = at {
            add(&mut self.near, at, &mut self.is_refused);
        }
    }

    /// Notes that a tile and those that have a strand in common with it are near.
    pub fn look_around(&mut self, at: u32) {
        if let Some(Node { tile, .. }) = self.node(at) {
            self.note_near(Some(at));
            self.note_near(self.wire_of(tile.ins[0]).strand.maker);
            self.note_near(self.wire_of(tile.ins[1]).strand.maker);
            self.note_near(self.wire_of(tile.outs[0]).strand.user);
            self.note_near(self.wire_of(tile.outs[1]).strand.user);
        }
    }

    // The tile at the other end of a gate's input, or of a fork's copy, if it is a Cross.
    fn beyond(&self, kind: TileKind, strand: u32) -> Option<Crossing> {
        let wire = self.wire(strand);
        match kind {
            TileKind::Fork => self.crossing(wire.strand.user),
            _ => self.crossing(wire.strand.maker),
        }
    }

    // The crossings by which a strand from a side passes a tile.
    fn passing_at(&self, tile: Tile, side: Side) -> Option<Passing> {
        let ends = match tile.kind {
            TileKind::Cross | TileKind::Bump(_) => None,
            TileKind::Fork => pair_of(tile.outs),
            _ => pair_of(tile.ins),
        };
        let Some(ends) = ends else {
            return None;
        };
        let first = self.beyond(tile.kind, side.near(ends));
        let second = self.beyond(tile.kind, side.far(ends));
        let (Some(first), Some(second)) = (first, second) else {
            return None;
        };
        let (near, far) = match tile.kind {
            TileKind::Fork => (side.far(first.ins), side.far(second.ins)),
            _ => (side.near(first.outs), side.near(second.outs)),
        };
        let is_passing = near == side.near(ends)
            && far == side.far(ends)
            && side.near(second.ins) == side.far(first.outs);
        if !is_passing {
            return None;
        }
        Some(Passing {
            side,
            first,
            second,
        })
    }

    // Lets the strand that passes a tile cross on the tile's other side.
    fn pass_tile(&mut self, at: u32, tile: Tile, passing: Passing) {
        let (side, first, second) = (passing.side, passing.first, passing.second);
        let (Some(source), Some(made)) = (tile.ins[0], tile.outs[0]) else {
            return;
        };
        let crossing = cross(
            side.pair(side.near(first.ins), source),
            side.pair(made, side.far(second.outs)),
        );
        self.set_node(second.at, None);
        self.put(first.at, crossing, first.choice);
        self.put(at, moved(tile, passing), first.choice);
    }
}
