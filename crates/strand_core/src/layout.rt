// Where the tiles and strands of a circuit are drawn.

/// The columns and rows of a circuit of strands, in a box of `width` x `height` cells. `tiles` has the cell of each
/// tile's first entry, the upper one. The cells of strand `s` are `path[starts[s]..starts[s + 1]]`, as columns and rows,
/// from west to east, each beside the one before and a column further east: the first is its maker's exit or, without a
/// maker, a lone cell in column 0, and the last is its user's entry or, without a user, a lone cell in the last column.
/// A strand that is drawn nowhere has no cells.
#[derive(Drop)]
pub struct Layout {
    pub width: u32,
    pub height: u32,
    pub tiles: Vec<(u32, u32)>,
    pub path: Vec<(u32, u32)>,
    pub starts: Vec<u32>,
}
