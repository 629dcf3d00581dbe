//! Circuits of strands, made of lists of cells.
#![tactic(auto)]

mod circuit;
mod forks;
mod graph;
mod parts;
mod readers;
mod registers;
mod values;
mod weaving;

pub use circuit::strand_circuit;
