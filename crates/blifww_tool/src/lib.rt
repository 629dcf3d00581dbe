//! The top call of the program: `compile`, `eval` and `tape` for the text of a netlist, `aiger` for that of a circuit,
//! `simulate`, `probe`, `window`, `vcd` and `lift` for that of a pattern, and `make` and `self` for made netlists.
//!
//! Theorem: `run` (`headline`, `contexts`, `tapes`, `aigs`, `dumps`, `lifts`, `ends`), `statuses_have_causes`.
#![tactic(auto)]

mod aiger;
mod compile;
mod driven;
mod eval;
mod input;
pub mod laws;
mod lift;
mod lines;
mod make;
mod output;
mod probe;
mod simulate;
mod summary;
mod tape;
mod top;
mod vcd;
mod window;

pub use top::run;
