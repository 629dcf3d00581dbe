//! Runs a netlist under streams of bits.
//!
//! Theorem: `run`.
#![tactic(auto)]

mod running;

// The answer of `run` when memory runs out.
pub use lists::OutOfMemory as RunError;
pub use running::run;
