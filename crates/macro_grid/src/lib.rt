//! Which plans can be drawn, the edges between their tiles, and the step of 32 generations.
//!
//! Theorem: `admissible`, `macro_step`, `plans_step_by_macro`.
#![tactic(auto)]

mod edges;
mod laws;
mod ports;
mod rules;
mod starts;
mod step;

pub use edges::Edges;
pub use laws::plans_step_by_macro;
// The answer of `Edges::start` when memory runs out.
pub use lists::OutOfMemory as EdgesError;
pub use rules::admissible;
pub use step::macro_step;
