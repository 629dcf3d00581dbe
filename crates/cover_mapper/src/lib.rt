//! Maps the covers of a flat netlist to two-input cells.
//!
//! Theorem: `map` (`mapped`, `few`, `bits`).
#![tactic(auto)]

mod classes;
mod mapping;
mod nodes;
mod singles;
mod start;

// The answer of `map` when memory runs out.
pub use lists::OutOfMemory as MapError;
pub use mapping::{Mapped, map};
