//! Reads a pattern from its text in extended RLE.
//!
//! Theorem: `read` (`pattern`, `reads`, `faulty`, `large`).
#![tactic(auto)]

mod draw_text;
mod drawing;
mod error;
mod header;
mod items;
mod reader;
mod words;

pub use error::{RleFault, RleReadError};
pub use reader::read;
