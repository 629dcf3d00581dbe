//! The layout of a plan: which tile stands in which block, and that the tiles of an admissible plan fit together; and
//! the plan's drawing, in which the tape lies before the body.
//!
//! Theorem: `plans_fit_together`, `tapes_fit_together`, `slot_at`, `slot_drawn_at`, `is_lit`.
#![tactic(auto)]

mod drawing;
mod edge;
pub mod laws;
mod layout;
mod ports;
mod slot;
mod starts;

pub use drawing::{body_column, is_lit, slot_drawn_at};
pub use edge::Edge;
pub use layout::slot_at;
pub use ports::is_left;
pub use slot::{Piece, Slot};
pub use starts::{edge_name, is_passed};
