//! Adds cells to a list, and finds the cell, operand or constant there that has the wanted bit already.
//!
//! Theorem: `settle`, `share`; definition `Answers`.
#![tactic(auto)]

mod gates;
mod reduced;
mod shared;

pub use gates::{and, and_not, or};
pub use reduced::settle;
pub use shared::{Places, share};
