// The circuit that a web has become, with its bumps.
use crate::waits::MOST;
use crate::web::{Node, Web};
use lists::OutOfMemory;
use std::alloc::Global;
use strand_core::{East, End, Strand, StrandCircuit, Tile, TileKind, West, add, at, put};

// What a circuit is made of, with the numbers that the web's strands have in it, each one more, by their numbers in the
// web.
#[derive(Drop)]
struct Writing {
    strands: Vec<Strand>,
    tiles: Vec<Tile>,
    west: Vec<End<West>>,
    east: Vec<End<East>>,
    numbers: Vec<u32>,
    // the web's tiles by the columns before their ends: each after those whose strands it takes
    order: Vec<(u32, u32)>,
    is_refused: bool,
}

fn small(number: usize) -> u32 {
    u32::try_from(number).unwrap_or(u32::MAX)
}

fn set_user(strands: &mut [Strand], strand: Option<u32>, tile: u32) {
    if let Some(strand) = strand {
        if (strand as usize) < strands.len() {
            strands[strand as usize].user = Some(tile);
        }
    }
}

fn set_maker(strands: &mut [Strand], strand: Option<u32>, tile: u32) {
    if let Some(strand) = strand {
        if (strand as usize) < strands.len() {
            strands[strand as usize].maker = Some(tile);
        }
    }
}

impl Writing {
    // Returns the number that a strand of the web has here.
    fn number(&self, strand: Option<u32>) -> Option<u32> {
        match strand {
            Some(strand) => at(&self.numbers, strand).checked_sub(1),
            None => None,
        }
    }

    // Adds a strand, and returns its number.
    fn add(&mut self, late: u32) -> u32 {
        let number = small(self.strands.len());
        let strand = Strand {
            maker: None,
            user: None,
            late,
        };
        add(&mut self.strands, strand, &mut self.is_refused);
        number
    }

    // Adds a strand of the web, and returns its number.
    fn add_strand(&mut self, web: &Web, strand: Option<u32>) -> Option<u32> {
        let Some(strand) = strand else {
            return None;
        };
        let number = self.add(web.wire(strand).strand.late);
        put(&mut self.numbers, strand, number.saturating_add(1));
        Some(number)
    }

    // Adds a tile between its strands.
    fn add_tile(&mut self, tile: Tile) {
        let number = small(self.tiles.len());
        set_user(&mut self.strands, tile.ins[0], number);
        set_user(&mut self.strands, tile.ins[1], number);
        set_maker(&mut self.strands, tile.outs[0], number);
        set_maker(&mut self.strands, tile.outs[1], number);
        add(&mut self.tiles, tile, &mut self.is_refused);
    }

    // Adds a bump that takes so many generations behind a strand. Returns the strand behind it.
    fn add_bump(&mut self, before: Option<u32>, extra: u32, late: u32) -> Option<u32> {
        let after = Some(self.add(late));
        self.add_tile(Tile {
            kind: TileKind::Bump(extra),
            ins: [before, None],
            outs: [after, None],
        });
        after
    }

    // Adds bumps behind a strand of the web. Returns the strand whose signal comes so many generations later.
    fn wait(&mut self, web: &Web, strand: Option<u32>, wait: u32) -> Option<u32> {
        let mut now = self.number(strand);
        let mut late = web.wire_of(strand).strand.late;
        let mut left = wait;
        for _ in 0..=wait / MOST {
            if left == 0 {
                break;
            }
            let extra = left.min(MOST);
            left = left.saturating_sub(extra);
            late = late.saturating_add(extra);
            now = self.add_bump(now, extra, late);
        }
        now
    }

    // Adds a tile of the web, and the bumps before it.
    fn add_node(&mut self, web: &Web, node: Node) {
        let tile = node.tile;
        let (first, second) = web.waits(node);
        let upper = self.wait(web, tile.ins[0], first);
        let lower = self.wait(web, tile.ins[1], second);
        let north = self.add_strand(web, tile.outs[0]);
        let south = self.add_strand(web, tile.outs[1]);
        self.add_tile(Tile {
            kind: tile.kind,
            ins: [upper, lower],
            outs: [north, south],
        });
    }

    fn add_west(&mut self, web: &Web) {
        for end in &web.west {
            let strand = self.add_strand(web, end.strand);
            let end = End { strand, is: end.is };
            add(&mut self.west, end, &mut self.is_refused);
        }
    }

    // Adds the ends at the east, where all outputs come at once.
    fn add_east(&mut self, web: &Web) {
        let latest = web.latest();
        for end in &web.east {
            let wait = web.wait_at_east(*end, latest);
            let strand = self.wait(web, end.strand, wait);
            let end = End { strand, is: end.is };
            add(&mut self.east, end, &mut self.is_refused);
        }
    }

    fn find_order(&mut self, web: &Web) {
        for number in 0..small(web.nodes.len()) {
            if let Some(node) = web.node(number) {
                let level = web.wire_of(node.tile.outs[0]).level;
                add(&mut self.order, (level, number), &mut self.is_refused);
            }
        }
        self.order.as_mut_slice().sort_unstable();
    }

    // Adds the tiles of a web in their order.
    fn add_nodes(&mut self, web: &Web) {
        for place in 0..self.order.len() {
            if let Some((_, number)) = self.order.get(place).copied() {
                if let Some(node) = web.node(number) {
                    self.add_node(web, node);
                }
            }
        }
    }
}

fn writing_of(alloc: Global, web: &Web) -> Result<Writing, OutOfMemory> {
    let mut writing = Writing {
        numbers: vec![in alloc; 0; web.wires.len()]?,
        strands: Vec::new(alloc),
        tiles: Vec::new(alloc),
        west: Vec::new(alloc),
        east: Vec::new(alloc),
        order: Vec::new(alloc),
        is_refused: false,
    };
    writing.find_order(web);
    writing.add_west(web);
    writing.add_nodes(web);
    writing.add_east(web);
    Ok(writing)
}

/// Makes a circuit that of a web, with bumps.
pub fn write(alloc: Global, web: &Web, circuit: &mut StrandCircuit) -> Result<(), OutOfMemory> {
    let writing = writing_of(alloc, web)?;
    if writing.is_refused {
        return Err(OutOfMemory::NoMemory);
    }
    circuit.strands = writing.strands;
    circuit.tiles = writing.tiles;
    circuit.west = writing.west;
    circuit.east = writing.east;
    Ok(())
}
