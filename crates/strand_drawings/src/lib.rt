//! Drawings of circuits of strands: gates, wires, registers led around the circuit, and ports.
#![tactic(auto)]

mod boards;
mod drawn;
mod gates;
mod loops;
mod patterns;
mod periods;
mod rings;
mod wires;

pub use drawn::{Drawn, drawn_circuit};
pub use patterns::pattern_of;
