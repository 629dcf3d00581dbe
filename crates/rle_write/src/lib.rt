//! Writes the pattern of a plan, and any pattern, in extended RLE. It takes no memory.
//!
//! Theorem: `write` and `write_pattern` (each `ok`, `front`, `cause`).
#![tactic(auto)]

mod bare;
mod block_rows;
mod blocks;
mod body;
mod copies;
mod dark;
mod items;
mod lap_sink;
mod laps;
mod pattern_rows;
mod plan_rows;
mod rows;
mod step_bytes;
mod steps;
mod stretches;
mod text;

pub use text::{write, write_pattern};
