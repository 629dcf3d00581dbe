//! Reads the port table in the comments before a pattern's header.
//!
//! Theorem: `read` (`table`, `reads`, `fault`).
#![tactic(auto)]

mod faults;
mod forms;
mod names;
mod numbers;
mod ports;
mod reading;
mod seen;
mod table;

pub use faults::PortFault;
pub use pattern_reading::{NetLine, PortLine, Ports};
pub use port_writing::write_line;
pub use reading::{PortReadError, read};
