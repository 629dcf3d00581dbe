//! Orders the nodes of a flat netlist, or finds a combinational loop.
//!
//! Theorem: `order` (`order`, `no_loop`, `refused`).
#![tactic(auto)]

mod links;
mod ordering;
mod outputs;
mod table;

pub use ordering::{OrderError, order};
