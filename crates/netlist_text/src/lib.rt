//! The netlist of a BLIF text: its design, its flat netlist and an order of the covers, or why there is none.
//!
//! Theorem: `netlist_of` (`netlist`, `parts`, `refused`), `texts_are_decided`.
#![tactic(auto)]

mod error;
pub mod laws;
mod names;
mod netlist;

pub use error::NetlistError;
pub use netlist::{Netlist, netlist_of};
