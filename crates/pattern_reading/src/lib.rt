//! What the text of a pattern in extended RLE says, and the port table in its comments.
//!
//! Definition: `ReadsAsPattern`, `HasRleFault`, `ReadsAsPorts`, `HasPortFault`.
#![tactic(auto)]

mod faults;
mod ports;

pub use faults::{PortFaultKind, RleFaultKind};
pub use ports::{NetLine, PortLine, Ports, TableVersion, names_of};
