//! Proves what made netlists are, and makes a summary of one: it is run twice, as its pattern shows it and as the
//! netlist gives it.
//!
//! Theorem: `summarize` (`summary`, `refused`).
#![tactic(auto)]

mod drawing;
mod error;
pub mod laws;
mod plans;
mod summarizing;
pub mod texts;

pub use error::SummaryError;
pub use summarizing::{OutputBits, Summary, summarize};
