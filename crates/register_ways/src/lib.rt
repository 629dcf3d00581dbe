//! Ways of registers around a circuit: wires that leave it at the east and come back at the west, around its north or its
//! south, each as many generations long as its latches ask. They lie in each other; a wire that would come early has bumps.
#![tactic(auto)]

mod bundle;
mod corners;
mod frame;
mod laying;
mod plans;
mod ways;

pub use frame::{Circuit, Loop};
pub use ways::{Ways, ways_around};
