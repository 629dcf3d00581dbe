//! What a BLIF text says: its logical lines, its models and its faults.
//!
//! Theorem: `design_or_fault`, `never_design_and_fault`; definitions `logical_lines`, `HasFault`, `IsDesignOf`.
#![tactic(auto)]

pub mod laws;
mod logical;

pub use logical::Logical;
pub use netlist_rules::{Fault, FaultKind};
