//! What it means that a list of cells computes a flat netlist, that a program, or a plan, computes a list of cells, and
//! that sources of a list move to another list, which computes the same.
//!
//! The functions here do nothing: their clauses are the laws.
//!
//! Theorem: `mapped_stays`, `bits_stay`; definition `IsMapped`, `ComputesByProgram`, `ComputesByPlan`, `MovesBy`,
//! `Keeps`.
#![tactic(auto)]

pub mod laws;
