//! The plans of circuits, and the cells that their columns make, which is the converse of placing cells on lanes. The
//! plan of a circuit is admissible and has no tape, and electrons stand at generation 0 only where loops enter the
//! columns, so its starts are a bit for each loop.
//!
//! Theorem: `cells_of` (`computes`, `starts`, `no_one`), `first_bits`, `starts_of_bits`, `starts_are_of_loops`; definition
//! `IsCircuit`.
#![tactic(auto)]

mod entry;
pub mod laws;
mod leaving;
mod lifting;
mod loops;

pub use lifting::cells_of;
// The answer of `cells_of` when memory runs out.
pub use lists::OutOfMemory as LiftError;
pub use loops::{first_bits, starts_of_bits};
