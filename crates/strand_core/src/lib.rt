//! Circuits of strands: signals that run east side by side and meet in tiles. A search that draws routed circuits works
//! on them. What counts is which strands run side by side, and not in which columns and rows.
#![tactic(auto)]

mod circuit;
mod effort;
mod layout;
mod tables;

pub use circuit::{East, End, Register, Strand, StrandCircuit, Tile, TileKind, West};
pub use effort::Effort;
pub use layout::Layout;
pub use tables::{add, at, put, set, widen};
