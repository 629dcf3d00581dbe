//! Tiles: their kinds, ports and answers, and the timing law that every drawing of a tile keeps.
//!
//! Theorem: `ports_differ`; definition `MeetsTimingLaw`.
#![tactic(auto)]

mod kind;
pub mod laws;
mod tile;

pub use kind::Kind;
pub use tile::{Library, Tile};
