//! The board of a routed circuit, which is a pattern's cells, with what each belongs to, and the parts of the drawing
//! that are known; and the comments in which a pattern names its gates and its wires: they are read as a hint, onto a
//! board, and written. Nothing but safety is proved of what they say, since a check tests it. Before a pattern's text
//! they change nothing.
//!
//! Theorem: `gate_lines_are_skipped` (`pattern`, `ports`), `are_gate_lines`; definition `AreGateLines`.
#![tactic(auto)]

mod board;
mod comments;
mod owners;
mod ports;
mod reading;
mod steps;
mod table;
mod words;
mod writing;

pub use board::{Board, Wiring, part_of, small};
pub use comments::{are_gate_lines, gate_lines_are_skipped};
pub use owners::{Beside, Owner, Owners};
pub use ports::port_cell;
pub use reading::read;
pub use steps::{STEPS, Step};
pub use table::{LineKind, TableCell};
pub use writing::gate_lines;
