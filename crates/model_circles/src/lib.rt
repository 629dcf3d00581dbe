//! Finds the earliest subckt line on a circle of models, in which each model places the next.
//!
//! Theorem: `circle_fault`.
#![tactic(auto)]

mod circle;
mod components;
mod fault;
mod ranking;
mod search;

pub use fault::circle_fault;
