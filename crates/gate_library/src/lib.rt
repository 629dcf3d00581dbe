//! The library of small gates: their drawings as data, in eight turns, with their names, and the tests that a drawing
//! keeps its law; and routed circuits as data: gates that stand apart, and wires between their ports.
#![tactic(auto)]

mod circuit;
mod drawings;
mod gate;
mod kind;
mod lawful;
mod laws;
mod library;
mod names;
mod ports;
mod sketch;
mod tables;
mod testing;
mod turning;

pub use circuit::{Drawing, DrawnGate, DrawnPort, DrawnWire, GatePort};
pub use drawings::drawing_of;
pub use gate::{Answer, GateDrawing, Timing};
pub use kind::{GateKind, Shape, Turn};
pub use lawful::LawfulGate;
pub use laws::lawful_are_gates_at_period;
pub use library::GateLibrary;
pub use names::{SHAPES, TURNS, kind_named, letter_of, word_of};
pub use ports::PortCell;
