//! Orders linked numbers so that each comes after those that it links to, or finds a circle of them.
//!
//! Theorem: `order` (`order`, `refused`).
#![tactic(auto)]

mod error;
mod ordering;
mod walk;

pub use error::WalkError;
pub use ordering::order;
