//! Drafts: an order of the cells of a list, the lanes of its inputs, and how many lanes there are. A search changes one
//! in place, and takes a change back. Nothing is promised of a draft: whoever uses what a search finds checks it.
//!
//! Definition: `Draft`.
#![tactic(auto)]

mod draft;
mod gates;
mod homes;
mod numbers;

pub use draft::Draft;
pub use gates::{Gate, Gates};
pub use homes::Homes;
pub use numbers::as_small;
