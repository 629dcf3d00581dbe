//! Puts the cells of a list into a given order, which it checks; and finds an order in which fewer values are needed at
//! a time.
//!
//! Theorem: `in_order`, `alike_is_planned`.
#![tactic(auto)]

mod ending;
pub mod laws;
mod moving;
mod reordering;

pub use ending::ending_order;
// The answer of `in_order` and `ending_order` when memory runs out.
pub use lists::OutOfMemory as ReorderError;
pub use reordering::in_order;
