//! The gates and the wires of a routed circuit, found in its cells. It is a search: nothing but safety is proved of it,
//! and a check tests the drawing that it finds.
#![tactic(auto)]

mod crossings;
mod ends;
mod error;
mod finder;
mod gates;
mod links;
mod lone;
mod periods;
mod result;
mod templates;
mod times;
mod uses;
mod ways;
mod wires;

pub use error::{DrawingFault, FindError};
pub use finder::find;
