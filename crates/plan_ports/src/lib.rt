//! Makes the port table of a plan of a flat netlist.
//!
//! Theorem: `of_plan`, `tables_are_readable`.
#![tactic(auto)]

mod nets;
mod table;

ghost use Rattle.plan_ports.specs.Laws.{TablesAreReadable};

// The answer of `of_plan` when memory runs out.
pub use lists::OutOfMemory as PortsError;
pub use table::of_plan;

/// The table of a plan can be written and read back: it is sound, and its cells lie in the box of
/// the plan's pattern, if the contexts have room in the period and names and places can stand in a
/// table.
pub fn tables_are_readable()
    ensures { TablesAreReadable }
{}
