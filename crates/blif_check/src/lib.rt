//! Checks models against the rules on models: they are a design, or have a first fault. Also exports `check_clock`,
//! which checks the clocks of a flat netlist.
//!
//! Theorem: `check` (`faultless`, `passes`, `fault`).
#![tactic(auto)]

mod checking;
mod error;
mod rules;

pub use checking::check;
pub use clock_check::check_clock;
pub use error::CheckError;
pub use netlist_core::Design;
