//! Finds in models the first port that is named twice, the first second driver and the first net without a driver.
//!
//! Theorem: `net_faults` (`duplicate_port`, `second_driver`, `undriven`).
#![tactic(auto)]

mod drivers;
mod duplicates;
mod faults;
mod first_lines;
mod net_words;
mod numbering;
mod pins;
mod readings;
mod repeats;
mod second_drivers;
mod undriven_nets;
mod words;

pub use faults::{NetFaults, net_faults};
