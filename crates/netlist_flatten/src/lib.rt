//! Flattens a design, or reports that it weighs too much.
//!
//! Theorem: `flatten` (`flat`, `flattens`, `too_large`).
#![tactic(auto)]

mod classes;
mod copies;
mod error;
mod flattening;
mod latches;
mod nets;
mod nodes;
mod numbers;
mod ports;
mod tables;

pub use error::FlattenError;
pub use flattening::flatten;
