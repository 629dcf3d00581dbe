//! Orders of the layers of a graph in which few edges cross. A search finds them, and nothing is promised of them.
#![tactic(auto)]

mod crossings;
mod layered;
mod links;
mod orders;
mod room;
mod search;
mod sifting;
mod sweeps;
mod untangling;

pub use layered::{Layered, Parts, small};
pub use links::Links;
pub use orders::Orders;
pub use search::{Ordered, few_crossings};
