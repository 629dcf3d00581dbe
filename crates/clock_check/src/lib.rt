//! Checks the rules on clocks in a flat netlist: one clock for all latches, and clock nets that nothing else reads or
//! drives.
//!
//! Theorem: `check_clock` (`fault`, `none`).
#![tactic(auto)]

mod check;
mod control;
mod error;
mod uses;

pub use check::check_clock;
pub use error::ClockError;
