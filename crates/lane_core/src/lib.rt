//! Lanes: instructions on the bits of lanes, columns of instructions, programs and plans, and where the signals of a
//! plan and of its tape are found in its drawing.
//!
//! Theorem: `run_columns`, `period`, `latency`; definition `IsAdmissible`.
#![tactic(auto)]

mod instr;
pub mod laws;
mod places;
mod plan;
mod run;
mod starts;
mod tape;

pub use instr::{Column, Instr};
pub use places::{in_cell, latency, net_cell, out_cell, period};
pub use plan::{NetPlace, Plan, Program};
pub use run::{run_columns, run_instrs};
pub use starts::{Start, Starts};
pub use tape::{cycle_tiles, tape_bit, tape_cycles, tape_shift, tape_tiles};
