// Sides at which two blocks meet.

/// An edge, named by the tile column and the lane, both counted from 0, of the block on whose west
/// side (`Beside`) or north side (`Above`) it lies.
#[derive(Clone, Copy)]
pub enum Edge {
    Beside(u64, u64),
    Above(u64, u64),
}
