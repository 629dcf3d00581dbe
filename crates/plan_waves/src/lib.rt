//! How signals run through the body of a plan and round its loops, cycle by cycle, for each of several contexts, and
//! what the plane shows of them; and tapes of plans: bits for the inputs of a plan, put on its tape before the body, run
//! in by themselves.
//!
//! The functions here but `load` do nothing: their clauses are the laws.
//!
//! Theorem: `plans_show_context_rows`, `contexts_are_isolated`, `plans_show_edges`; `load` (`loaded`, `admissible`,
//! `back`), `tapes_run_in`, `tapes_begin`, `tapes_show_rows`.
#![tactic(auto)]

mod beside;
mod contexts;
mod cycles;
mod loading;
mod shown;
mod tapes;
mod waves;

pub use beside::ports_stand_free;
pub use contexts::{contexts_are_isolated, plans_show_context_rows, plans_show_contexts};
pub use cycles::edges_run_by_cycles;
pub use loading::{LoadError, load};
pub use shown::plans_show_edges;
pub use tapes::{tapes_begin, tapes_run_in, tapes_show_rows};
pub use waves::{
    body_begins_dark, columns_pass, loops_come_round, loops_have_ways_back, ways_back_are_apart,
};
