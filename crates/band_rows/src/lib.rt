//! Fields of cells in planes of words, with marks of the words that may change, and generations of a field between rows
//! of heads and alone.
//!
//! Theorem: `step_between`, `run` (`gone`).
#![tactic(auto)]

mod cell_bits;
mod field;
mod field_facing;
mod field_light;
mod field_making;
mod field_run;
mod plane_row;

pub use field::{Field, WordMarks};
pub use plane_row::{FacingRows, PlaneRow};
