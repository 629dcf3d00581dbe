// Sketches in eight turns.

use crate::kind::Turn;
use crate::sketch::Sketch;

fn is_upright(turn: Turn) -> bool {
    match turn {
        Turn::East | Turn::EastMirrored | Turn::West | Turn::WestMirrored => false,
        Turn::South | Turn::SouthMirrored | Turn::North | Turn::NorthMirrored => true,
    }
}

// The column and the row, in the drawing whose signals run east, of the cell at x, y of the turned
// one. `right` and `low` are the last column and the last row of the drawing whose signals run
// east.
fn before_turning(turn: Turn, right: u32, low: u32, x: u32, y: u32) -> (u32, u32) {
    match turn {
        Turn::East => (x, y),
        Turn::EastMirrored => (x, low.saturating_sub(y)),
        Turn::South => (y, low.saturating_sub(x)),
        Turn::SouthMirrored => (y, x),
        Turn::West => (right.saturating_sub(x), low.saturating_sub(y)),
        Turn::WestMirrored => (right.saturating_sub(x), y),
        Turn::North => (right.saturating_sub(y), x),
        Turn::NorthMirrored => (right.saturating_sub(y), low.saturating_sub(x)),
    }
}

/// Returns how many cells a row of a turned sketch has.
pub fn width_of(sketch: &Sketch, turn: Turn) -> u32 {
    if is_upright(turn) {
        sketch.height
    } else {
        sketch.width
    }
}

/// Returns the column and the row of a cell of a turned sketch, by its number.
pub fn place_of(sketch: &Sketch, turn: Turn, cell: u32) -> (u32, u32) {
    let width = width_of(sketch, turn).max(1);
    (cell % width, cell / width)
}

/// Returns the letter of a cell of a turned sketch, by its number.
pub fn letter_at(sketch: &Sketch, turn: Turn, cell: u32) -> u8 {
    let (x, y) = place_of(sketch, turn, cell);
    let right = sketch.width.saturating_sub(1);
    let low = sketch.height.saturating_sub(1);
    let (u, v) = before_turning(turn, right, low, x, y);
    let place = sketch
        .width
        .saturating_add(1)
        .saturating_mul(v)
        .saturating_add(u);
    match sketch.rows.get(place as usize) {
        Some(letter) => *letter,
        None => b'.',
    }
}

/// Returns how many cells a sketch has.
pub fn size_of(sketch: &Sketch) -> u32 {
    sketch.width.saturating_mul(sketch.height)
}

/// Returns the column and the row of a letter of a turned sketch, or those of the first cell if it
/// does not occur.
pub fn find(sketch: &Sketch, turn: Turn, letter: u8) -> (u32, u32) {
    for cell in 0..size_of(sketch) {
        if letter_at(sketch, turn, cell) == letter {
            return place_of(sketch, turn, cell);
        }
    }
    (0, 0)
}
