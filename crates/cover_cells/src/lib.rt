//! Maps a cover to two-input cells.
//!
//! Theorem: `map_cover` (`value`, `single`, `constant`).
#![tactic(auto)]

mod covers;
mod placed;
mod rows;
mod search;
mod singles;
mod words;

pub use covers::map_cover;
pub use singles::single_cell;
