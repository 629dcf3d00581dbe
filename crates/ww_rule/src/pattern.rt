// The four states, patterns as boxes of cells in rows, and injections.
use crate::cell_rows::CellRows;

/// The state of a cell, by Silverman's rule.
#[derive(Clone, Copy, PartialEq, Eq)]
pub enum State {
    Empty,
    Head,
    Tail,
    Conductor,
}

ghost use Rattle.ww_rule.specs.Grid.{IsGrid};

/// A box of cells: `height` rows of `width` cells each, from north to south, and no rows if the box
/// has no cells.
#[derive(Drop)]
pub struct Pattern {
    pub width: u64,
    pub height: u64,
    pub rows: CellRows,
    ghost in_rows: { IsGrid width height rows },
}

/// A cell that is made a head from outside, at a generation: its column x is counted from the west
/// and its row y from the north, each from 0.
#[derive(Clone, Copy)]
pub struct Injection {
    pub generation: u128,
    pub x: u64,
    pub y: u64,
}
