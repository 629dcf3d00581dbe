//! Finds replacements of cells by functions of other cells, by which a list needs fewer cells. Nothing is promised of
//! what it finds: whoever takes a replacement checks it.
//!
//! Theorem: `replacements`.
#![tactic(auto)]

mod cuts;
mod divisors;
mod matching;
mod network;
mod replacing;
mod sieve;
mod windows;

pub use replacing::{Replacement, Round, replacements};
