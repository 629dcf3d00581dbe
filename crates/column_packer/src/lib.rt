//! Packs the instructions of a program into columns, each as early as its lanes allow.
//!
//! Theorem: `pack` (`packed`, `same`).
#![tactic(auto)]

mod numbering;
mod packing;

// The answer of `pack` and `column_numbers` when memory runs out.
pub use lists::OutOfMemory as PackError;
pub use numbering::column_numbers;
pub use packing::pack;
