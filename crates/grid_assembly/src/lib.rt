//! The cells of a plan: its tiles by the shipped drawings, and electrons at the edges that its starts name.
//!
//! Theorem: `patterns_are_planes`, `steps_by_edges`.
#![tactic(auto)]

mod cells;
pub mod laws;
mod rows;
mod runs;
mod west;

pub use rows::{cell, fill_row, pattern_of, size};
pub use runs::{run_at, run_in};
pub use west::{West, run_on_tape, tape_end, west_of};
