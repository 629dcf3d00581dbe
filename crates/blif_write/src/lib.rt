//! Writes the netlist of a plan's cells as BLIF text, which is made while it is written and takes no memory.
//!
//! Theorem: `of_cells` (`lift`); `of` (`lift`, `computes`, `no_one`); `write` (`ok`, `front`, `cause`); `laws::lifted_texts_read`; definition `lifted_text`.
#![tactic(auto)]

pub mod laws;
mod lift;
mod lifting;
mod lines;
mod netlist;
mod text;
mod word;
mod words;

// The answer of `of` when memory runs out.
pub use circuit_plans::LiftError;
pub use lift::Lift;
pub use lifting::{of, of_cells};
pub use text::write;
