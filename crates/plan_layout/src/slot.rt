// What may stand in a block of 32 columns and 16 rows.
use tile_core::Kind;

/// What is drawn: a tile of a kind, or an output cell, which counts as a tile of one cell.
#[derive(Clone, Copy)]
pub enum Piece {
    Tile(Kind),
    Output,
}

/// What stands in a block: nothing, a piece of one lane, or the upper or the lower lane of a piece
/// of two.
#[derive(Clone, Copy)]
pub enum Slot {
    Nothing,
    Whole(Piece),
    Upper(Piece),
    Lower(Piece),
}
