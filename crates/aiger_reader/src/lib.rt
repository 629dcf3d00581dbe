//! Reads an AIGER text in ASCII: its circuit, or its first fault.
//!
//! Theorem: `read` (`aig`, `reads`, `fault`).
#![tactic(auto)]

mod check;
mod entries;
mod error;
mod fields;
mod header;
mod names;
mod parts;
mod reading;
mod sections;
mod symbols;

pub use aiger_text::{Aig, AigAnd, AigFault, AigLatch};
pub use error::AigReadError;
pub use reading::read;
