//! Splits the text of a pattern into lines, and reads its blanks and numbers.
//!
//! Theorem: `split_line`, `number_in`.
#![tactic(auto)]

mod blanks;
mod lines;
mod numbers;

pub use blanks::{is_all_blank, is_blank};
pub use lines::{Line, split_line};
pub use numbers::number_in;
