//! Models by name and by number, and an order in which each comes after those that its subckt lines place.
//!
//! Theorem: `find`, `model`, `order` (`order`, `refused`).
#![tactic(auto)]

mod error;
mod links;
mod named;
mod numbers;
mod ordering;

pub use error::ModelOrderError;
pub use named::NamedModels;
pub use numbers::placed;
pub use ordering::order;
