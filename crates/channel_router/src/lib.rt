//! Routes: swaps that bring the bit of one lane to another lane.
//!
//! Theorem: `bring`.
#![tactic(auto)]

mod route;

// The answer of `bring` when memory runs out.
pub use lists::OutOfMemory as RouteError;
pub use route::bring;
