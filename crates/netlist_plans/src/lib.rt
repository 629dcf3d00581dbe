//! Makes a plan and its port table of a flat netlist with an order of its covers; their text carries the flat netlist.
//! With streams for its inputs on the plan's tape, the text runs by itself.
//!
//! Theorem: `cell_lists` (`computes`), `plan_flat`, `plan_netlist` (`carries`, `small`, `places`), `plan_contexts` (`carries`),
//! `load_netlist` (`runs`).
#![tactic(auto)]

mod contexts;
mod planning;
mod taping;

ghost use Rattle.netlist_plans.specs.Names.{TextsHavePortNames};
ghost use Rattle.netlist_plans.specs.TextNames.{NamesAreWords, NetsAreWords};

pub use contexts::plan_contexts;
// The answer of each call when memory runs out.
pub use lists::OutOfMemory as NetlistPlanError;
pub use planning::{Planned, cell_lists, plan_flat, plan_netlist};
pub use taping::load_netlist;

/// The names of a text's models, and of its design's nets, have at least one byte, no blank, no line
/// end and no `#`.
pub fn names_are_words()
    ensures names { NamesAreWords }
    ensures nets { NetsAreWords }
{}

/// The names of the flat netlist of a text's design can stand in a port table.
pub fn texts_have_port_names()
    ensures { TextsHavePortNames }
{}
