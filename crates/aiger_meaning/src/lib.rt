//! What a circuit in AIGER means, cycle by cycle, and its flat netlist, or why there is none.
//!
//! Theorem: `lower` (`lowered`, `order`, `light`, `no_loop`, `refused`), `flats_of_aigs_are_lowered`, `loops_of_aigs_are_flat`; definition `IsAigRun`.
#![tactic(auto)]

mod error;
mod flat;
pub mod laws;
mod literals;
mod loop_literals;
mod lowering;
mod nets;
mod nodes;
mod ports;
mod weight;

pub use error::LowerError;
pub use lowering::{Lowered, lower};
