// Random lists of cells.
ghost use Rattle.std.specs.Prelude.{IfSome};
ghost use Rattle.cell_plans.specs.PlanOf.{IsPlannable};

use crate::written::{Parts, list_in, no_parts};
use cell_core::{Cell, CellList, Src};
use std::alloc::Global;

/// A generator of random numbers.
#[derive(Clone, Copy)]
pub struct Draw {
    pub state: u32,
}

impl Draw {
    /// Draws a number that is below `n`, or 0 if `n` is 0.
    fn below(&mut self, n: u32) -> u32 {
        self.state = self.state.wrapping_mul(1664525).wrapping_add(1013904223);
        (self.state >> 16) % n.max(1)
    }
}

// How many inputs, latches and cells a source may come from.
#[derive(Clone, Copy)]
struct Counts {
    inputs: u32,
    latches: u32,
    cells: u32,
}

fn draw_source(draw: &mut Draw, counts: Counts) -> Src {
    let src = match draw.below(9) {
        0 | 1 | 2 => Src::Input(draw.below(counts.inputs)),
        3 => Src::Latch(draw.below(counts.latches)),
        4 => Src::One,
        5 => Src::Zero,
        _ => Src::Cell(draw.below(counts.cells)),
    };
    if src.is_there(
        counts.inputs as usize,
        counts.latches as usize,
        counts.cells as usize,
    ) {
        src
    } else {
        Src::Zero
    }
}

// Draws so many sources, and returns whether memory ran out.
fn draw_sources(draw: &mut Draw, counts: Counts, many: u32, sources: &mut Vec<Src>) -> bool {
    for turn in 0..many {
        if sources.push(draw_source(draw, counts)).is_err() {
            return true;
        }
    }
    false
}

fn draw_cell(draw: &mut Draw, counts: Counts) -> Cell {
    let a = draw_source(draw, counts);
    let b = draw_source(draw, counts);
    match draw.below(3) {
        0 => Cell::Or(a, b),
        1 => Cell::Xor(a, b),
        _ => Cell::AndNot(a, b),
    }
}

// Draws cells that read only inputs, latches, constants and earlier cells, and returns whether memory ran out.
fn draw_cells(draw: &mut Draw, counts: Counts, drawn: &mut Vec<Cell>) -> bool {
    for cells in 0..counts.cells {
        if drawn
            .push(draw_cell(draw, Counts { cells, ..counts }))
            .is_err()
        {
            return true;
        }
    }
    false
}

// Draws so many bits, and returns whether memory ran out.
fn draw_bits(draw: &mut Draw, many: u32, bits: &mut Vec<bool>) -> bool {
    for turn in 0..many {
        if bits.push(draw.below(2) == 1).is_err() {
            return true;
        }
    }
    false
}

// Draws all parts but the number of inputs, and returns whether memory ran out.
fn draw_parts(draw: &mut Draw, parts: &mut Parts) -> bool {
    let counts = Counts {
        inputs: parts.inputs,
        latches: draw.below(4),
        cells: draw.below(14),
    };
    let is_short = draw_bits(draw, counts.latches, &mut parts.starts)
        | draw_cells(draw, counts, &mut parts.cells);
    let (outs, nets) = (draw.below(6), draw.below(10));
    is_short
        | draw_sources(draw, counts, outs, &mut parts.outs)
        | draw_sources(draw, counts, counts.latches, &mut parts.latches)
        | draw_sources(draw, counts, nets, &mut parts.nets)
}

/// Draws a list with at most 4 inputs, 3 latches, 13 cells, 5 outputs and 9 nets.
pub fn draw_list(alloc: Global, draw: &mut Draw) -> Option<CellList>
    ensures { IfSome result IsPlannable }
{
    let mut parts = no_parts(alloc, draw.below(5));
    if draw_parts(draw, &mut parts) {
        drop(parts);
        return None;
    }
    list_in(parts)
}
