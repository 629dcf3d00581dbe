//! Makes netlists from a seed: a number of two-input gates on four inputs and two latches, as a BLIF text.
//!
//! Theorem: `make` (`text`), `reads_as_made`.
#![tactic(auto)]

mod gate;
mod generator;
pub mod laws;
mod made;

pub use generator::draw;
// The answer of `make` when memory runs out.
pub use lists::OutOfMemory as MakeError;
pub use made::{Made, make};
