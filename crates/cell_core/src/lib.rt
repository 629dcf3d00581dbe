//! Lists of two-input cells: what a circuit computes in one cycle, from the bits of its inputs and latches.
//!
//! Theorem: `appending_keeps_bits`; definition `bit_of`.
#![tactic(auto)]

mod cells;
mod draws;
pub mod laws;
mod list;
mod tables;

pub use cells::{Cell, Src, is_same_cell, is_same_src};
pub use draws::Draws;
pub use list::CellList;
// The answer of `CellList::push` when memory runs out.
pub use lists::OutOfMemory as CellError;
pub use tables::{and_not_words, and_words, net_word, or_words, xor_words};
