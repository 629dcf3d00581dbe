//! Laws of planes that carry signals; of parts, which carry whatever bits come to their inputs: side by side, joined by
//! wires, begun later, run more slowly; of gates, which are drawings that answer bits at their inputs by bits at their
//! outputs; and of crossings, which are gates with two inputs that may be lit at any generations far enough apart.
//!
//! Theorem: `parts_feed`, `parts_unite`, `parts_join`, `parts_start_later`, `parts_begin_later`,
//! `answers_go_slower`, `keeps_law`, `gates_answer_each_row`, `keeps_crossing_law`, `crossings_answer_each_row`.
#![tactic(auto)]

mod crossing;
mod laws;
mod parts;
mod window;

pub use crossing::keeps_crossing_law;
pub use laws::{
    answers_go_slower, crossings_answer_each_row, crossings_are_gates, crossings_copy,
    gates_answer_each_row, lawful_are_gates, planes_unite, spread_crossings_are_lawful, wires_feed,
};
pub use parts::{
    lone_cells_end_wires, parts_begin_later, parts_feed, parts_join, parts_start_later, parts_unite,
};
pub use window::{
    CHOICES, InCell, OutCell, answers_in_time, has_cells, is_sized, keeps_law, number_of_bits,
};
