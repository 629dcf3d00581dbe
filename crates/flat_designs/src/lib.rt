//! Laws of designs without a fault, and of the flat netlist of a design. A design without a fault is not recursive, and
//! each net has exactly one driver; its flat netlist exists, is unique, and has the design's valuations, cycles and
//! loops.
//!
//! The functions here do nothing: their clauses are the laws.
//!
//! Theorem: `faultless_have_drivers`, `faultless_are_not_recursive`, `flat_is_there`, `flat_is_one`, `valuations_are_flat`,
//! `cycles_are_flat`, `loops_are_flat`.
#![tactic(auto)]

ghost use Rattle.flat_designs.specs.Faultless.{FaultlessAreNotRecursive};
ghost use Rattle.flat_designs.specs.Laws.{ValuationsAreFlat, FlatIsSound, FlatIsInRange, LoopsAreFlat, FlatIsWeighed, FlatIsNamed, FlatIsThere, FlatIsOne, CyclesAreFlat};
ghost use Rattle.flat_designs.specs.OneDriver.{FaultlessHaveAtMostOneDriver, FaultlessHaveDrivers};

/// In a design without a fault, no model stands inside a place of itself.
#[tactic(auto, using(crate::proofs::Faultless::not_recursive))]
pub fn faultless_are_not_recursive()
    ensures { FaultlessAreNotRecursive }
{}

/// In a design without a fault, joined nets have at most one driver: a port of the main model, a
/// cover or a latch.
pub fn faultless_have_at_most_one_driver()
    ensures { FaultlessHaveAtMostOneDriver }
{}

/// In a design without a fault, each net is joined with one that has a driver.
pub fn faultless_have_drivers()
    ensures { FaultlessHaveDrivers }
{}

/// A valuation of the design is one of its flat netlist, and the other way round.
pub fn valuations_are_flat()
    ensures { ValuationsAreFlat }
{}

/// A loop of the flat netlist is one of the design, and the other way round.
pub fn loops_are_flat()
    ensures { LoopsAreFlat }
{}

/// The flat netlist is sound: each class but the clock nets' has one driver, and clock nets are
/// neither read nor driven.
pub fn flat_is_sound()
    ensures { FlatIsSound }
{}

/// The numbers of a flat netlist are in range, whatever its clocks are.
pub fn flat_is_in_range()
    ensures { FlatIsInRange }
{}

/// A design without a fault has a flat netlist.
pub fn flat_is_there()
    ensures { FlatIsThere }
{}

/// A cycle of the flat netlist is one of the design.
pub fn cycles_are_flat()
    ensures { CyclesAreFlat }
{}

/// A design has at most one flat netlist.
pub fn flat_is_one()
    ensures { FlatIsOne }
{}

/// The weight bounds the nets and the parts of the flat netlist.
pub fn flat_is_weighed()
    ensures { FlatIsWeighed }
{}

/// The inputs of the flat netlist are nets of the main model with distinct names, and so are its
/// outputs.
pub fn flat_is_named()
    ensures { FlatIsNamed }
{}
