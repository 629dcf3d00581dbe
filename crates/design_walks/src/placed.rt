// Places, and what stands there.
use lists::List;

/// The place in which another one stands: its number in the list of places, and the number of the
/// subckt line there that leads to the other.
#[derive(Clone, Copy)]
pub struct Parent {
    pub number: usize,
    pub line: usize,
}

/// A place, with the number of its model among the design's, and its parent. The main model's place
/// has no parent.
#[derive(Drop)]
pub struct PlacedModel {
    pub place: List<u32>,
    pub model: usize,
    pub parent: Option<Parent>,
}
