//! Makes a plan of one of several lists of cells: places, packs and closes it, in an order of its cells that it finds by
//! trials and climbing.
//!
//! Theorem: `best_plan`, `plan_of` (`admissible`, `computes`, `lanes`, `columns`).
#![tactic(auto)]

mod choosing;
mod planning;

pub use choosing::{Chosen, best_plan, plan_of};
pub use planning::climbed_plan;
// The answer of `best_plan` and `plan_of` when memory runs out.
pub use lists::OutOfMemory as PlanError;
