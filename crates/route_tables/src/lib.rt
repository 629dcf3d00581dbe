//! Tables of a routed circuit: its gates, wires and cells; the check of its cells; and what follows from all checks.
#![tactic(auto)]

mod alone;
mod cells;
mod fault;
mod feeds;
mod gates;
mod laws;
mod limit;
mod reading;
mod serials;
mod tables;
mod wires;

pub use cells::test_cells;
pub use fault::{CellFault, FaultWord};
pub use laws::checked_are_labelled;
pub use limit::BOX_LIMIT;
pub use reading::{input_port, src_at, state_at};
pub use tables::{Feed, GateInput, TableGate, TableWire, Tables};
