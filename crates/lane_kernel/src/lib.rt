//! The rule on rows of cells in words of bits: bit i of word j is cell 64 j + i of a row; and one generation of the
//! marked words of a plane.
//!
//! Theorem: `step_rows` (`heads`, `wires`, `cells`), `step_listed` (`shows`, `marked`).
#![tactic(auto)]

mod free_cells;
mod lanes;
mod planes;
mod rows;
mod stepping;
mod word_marks;
mod words;

pub use free_cells::Free;
pub use rows::step_rows;
pub use stepping::{mark_words, step_all, step_listed};
pub use word_marks::{BESIDE, mark, tell_around};
