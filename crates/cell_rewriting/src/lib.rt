//! Rewrites a list of cells into lists that compute the same with no more cells. Each replacement of a cell is checked by tables
//! over at most six leaves.
//!
//! Theorem: `rewritten` (`some`, `same`).
#![tactic(auto)]

mod copying;
mod moving;
mod ordering;
mod rebuilding;
mod rewriting;
mod substitution;
mod words;

// The answer of `rewritten` when memory runs out.
pub use lists::OutOfMemory as RewriteError;
pub use rewriting::rewritten;
