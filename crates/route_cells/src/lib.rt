//! The list of cells that a routed circuit computes, read off its drawing with proof.
//!
//! Theorem: `cells_of` (`shows`, `fits`).
#![tactic(auto)]

mod answers;
mod cells;
mod chains;
mod electrons;
mod error;
mod flat;
mod gates;
mod lines;
mod periods;
mod runs;
mod wires;

pub use cells::cells_of;
pub use error::RouteError;
