//! Words of models with the numbers of their lines: the earliest of several words that are offered one after another,
//! such as those at which models break a rule; and the names of the ports of models, as subckt lines look them up.
//!
//! Theorem: `offer`, `find`.
#![tactic(auto)]

mod earliest;
mod placed;
mod ports;
mod word;

pub use earliest::Earliest;
pub use netlist_rules::{Fault, FaultKind};
pub use placed::PlacedPorts;
pub use ports::PortNames;
pub use word::Word;
