//! Runs a flat netlist cycle by cycle, along an order of its nodes.
//!
//! Theorem: `cycle`, `ordered_have_one_valuation`.
#![tactic(auto)]

mod cover;
mod laws;
mod machine;
mod settle;

pub use laws::ordered_have_one_valuation;
// The answer of `Machine::new` when memory runs out.
pub use lists::OutOfMemory as MachineError;
pub use machine::Machine;
