//! The rules on models and on clocks, and their faults.
//!
//! Theorem: `faultless_or_fault`, `model_fault_is_first`.
#![tactic(auto)]

mod fault;
pub mod laws;

pub use fault::{Fault, FaultKind};
