//! Keeps what is 1 at zero in a list of cells as its complement, where zero means that all inputs and latches are 0. The outputs,
//! data and nets of the list keep their bits; constant 1 is named only where one of these, a kept source or what its cell reads is
//! 1 at zero.
//!
//! Theorem: `complemented`, `nothing_is_one_at_zero`, `complements_are_mapped`, `complements_spare_one`; definition `Complements`.
#![tactic(auto)]

mod building;
mod high;
pub mod laws;
mod low;
mod marks;

pub use building::{KeptList, complemented};
// The answer of `complemented` when memory runs out.
pub use lists::OutOfMemory as PolarityError;
