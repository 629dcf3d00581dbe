//! Walks over a design: its weight, which is the sum of its models' own weights over all places; its places in order, each with
//! its model and its parent; and the names of a model, in the order in which they first stand in its text.
//!
//! Theorem: `weight`, `places`, `of`.
#![tactic(auto)]

mod names;
mod placed;
mod walk;
mod weights;
mod words;

pub use names::ModelNames;
pub use placed::{Parent, PlacedModel};
pub use walk::places;
pub use weights::weight;
