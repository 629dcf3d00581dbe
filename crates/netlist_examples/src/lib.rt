//! What the definitions give for single designs and some 150 single texts, and laws that no other proof needs.
//!
//! Most of the crate is lemmas, whose statements are in specs/: designs in `Instances`, designs of one cover with two
//! inputs in `OneCover`, flat netlists in `FlatInstances`, laws of designs in `DesignLaws`, laws of texts in
//! `TextLaws`, and texts in `TextExamples`. The functions here do nothing: their clauses are four of the cases.
//!
//! Theorem: `latch_toggles`, `latch_breaks_loop`, `adder_adds`, `one_cover_computes_its_value`.
#![tactic(auto)]

mod designs;

pub use designs::{adder_adds, latch_breaks_loop, latch_toggles, one_cover_computes_its_value};
