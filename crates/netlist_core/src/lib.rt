//! Netlists as values: the models of a BLIF text, and the flat netlist, which has no hierarchy.
//!
//! Theorem: `weight_of`, `latch_named`.
#![tactic(auto)]

mod flat;
mod latch_names;
mod model;
mod weight;

pub use flat::{Flat, FlatLatch, FlatPort, Net, NetId, Node, Order};
pub use latch_names::latch_named;
pub use model::{Cover, Design, LatchRow, Model, Name, Pin, Port, Subckt, Trigger};
pub use weight::{WEIGHT_LIMIT, rows_weight, weight_of};
