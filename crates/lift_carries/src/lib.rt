//! A text that spells the drawing of a plan carries the netlist that is lifted from it; and what is compiled for one
//! context is written as such a text.
//!
//! The functions here do nothing: their clauses are the laws.
//!
//! Theorem: `lifts_carry`, `compiled_are_drawings`, `one_context_is_circuit`, `circuits_start_one_context`.
#![tactic(auto)]

ghost use Rattle.lift_carries.specs.Compiled.{CircuitsStartOneContext, CompiledAreDrawings, OneContextIsCircuit};
ghost use Rattle.lift_carries.specs.Lifts.{LiftsCarry};

/// A text that spells the drawing of a plan carries the netlist of the plan's cells, with the names
/// of the ports in the text.
pub fn lifts_carry()
    ensures { LiftsCarry }
{}

/// If an admissible plan without a tape starts one context, its starts are only where its loops
/// enter the columns.
pub fn one_context_is_circuit()
    ensures { OneContextIsCircuit }
{}

/// A plan whose electrons stand only where loops enter the columns starts one context.
pub fn circuits_start_one_context()
    ensures { CircuitsStartOneContext }
{}

/// The text that is written of what a compiler makes for one context spells the drawing of the
/// plan.
pub fn compiled_are_drawings()
    ensures { CompiledAreDrawings }
{}
