//! Runs a pattern under streams of bits for its inputs.
//!
//! Theorem: `simulate`, `bits_of_cells` (`near`, `quiet`, `bits`, `refused`); `injections` (`list`, `due`, `sorted`).
#![tactic(auto)]

mod bits;
mod driving;
mod error;
mod misses;
mod run;
mod simulation;

pub use bits::{GREATEST_GENERATION, bits_of_cells, last_from};
pub use driving::{CONTEXT_GENERATIONS, injections};
pub use error::SimulateError;
// The answer of `injections` and `Run::of_streams` when memory runs out.
pub use lists::OutOfMemory as DriveError;
pub use run::Run;
pub use simulation::simulate;
pub use streams::{StreamError, StreamFault, StreamFaultKind, Streams};
