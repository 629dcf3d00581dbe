//! Times in circuits of strands: bumps, so that the signals of each gate come together and those of each Cross apart. It
//! is a search: nothing but safety is proved of it.
#![tactic(auto)]

mod annealing;
mod cooling;
mod rewriting;
mod side;
mod times;
mod timing;
mod waits;
mod web;
mod writing;

pub use timing::set_times;
