//! Whether two lists of cells run alike: a list that was found in a drawing, and the one that was to be drawn.
//!
//! Theorem: `run_alike`; definition `RunAlike`.
#![tactic(auto)]

mod alike;
mod matched;

pub use alike::{run_alike, stand_ins};
pub use matched::stand_in;
// The answer of `run_alike` when memory runs out.
pub use lists::OutOfMemory as MatchError;
