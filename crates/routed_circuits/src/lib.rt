//! Routed circuits: planes of gates that stand apart, joined by wires; the lists of cells that they compute, of which
//! gates are cells, and wires some cycles long are latches; and their texts, which carry netlists.
//!
//! Theorem: `routed_carry`, `labelled_are_drawn`, `lists_are_carried`, `routed_show_runs`,
//! `routed_designs_are_carried`, `routed_are_lifted`.
#![tactic(auto)]

mod laws;

pub use laws::{
    gates_carry, labelled_are_drawn, lists_are_carried, routed_are_lifted, routed_carry,
    routed_carry_designs, routed_designs_are_carried, routed_show_runs, routed_texts_carry,
};
