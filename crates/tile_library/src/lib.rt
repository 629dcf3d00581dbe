//! The drawing of each kind of tile that the program draws.
//!
//! Theorem: `Shipped` (`law`).
#![tactic(auto)]

pub mod drawings;
mod rows;
mod shipped;
pub mod tiles;

pub use shipped::Shipped;
