//! Wireworld: states, patterns, planes and the rule.
//!
//! Theorem: `step_plain`, `step_driven`; definitions `next_plane`, `driven`.
#![tactic(auto)]

mod cell_rows;
pub mod laws;
mod mirror;
mod pattern;
mod plane;
mod rows;
mod turning;

pub use cell_rows::CellRows;
// The answer of `mirror_x`, `Plane::from_pattern`, `step_plain` and `step_driven` when memory runs
// out.
pub use lists::OutOfMemory as RuleError;
pub use mirror::mirror_x;
pub use pattern::{Injection, Pattern, State};
pub use plane::{Plane, step_driven, step_plain};
