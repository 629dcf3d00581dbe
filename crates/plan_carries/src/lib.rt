//! The text of a plan that computes the cells of a flat netlist carries that netlist, and so the design that it belongs
//! to. With the starts of several contexts on the plan's loops it carries them in each context, and with bits of the
//! inputs on the plan's tape it runs by itself.
//!
//! The functions here do nothing: their clauses are the laws.
//!
//! Theorem: `texts_carry_flats`, `designs_are_carried`, `texts_carry_contexts`, `designs_are_carried_in_contexts`, `tapes_run_by_themselves`, `designs_run_by_themselves`.
#![tactic(auto)]

ghost use Rattle.plan_carries.specs.ContextLaws.{DesignsAreCarriedInContexts, TextsCarryContexts};
ghost use Rattle.plan_carries.specs.Laws.{DesignsAreCarried, PlansHavePorts, PlanesShowRuns, TextsCarryFlats};
ghost use Rattle.plan_carries.specs.TapeLaws.{DesignsRunByThemselves, TapesRunByThemselves};

/// A plan that computes the cells of a flat netlist has the netlist's inputs and outputs.
pub fn plans_have_ports()
    ensures { PlansHavePorts }
{}

/// The text that is written of the drawing and the plan's table carries the flat netlist in several
/// contexts, if the lit edges start the loops of each.
pub fn texts_carry_contexts()
    ensures { TextsCarryContexts }
{}

/// A text that carries the flat netlist of a design without a fault in contexts carries the design
/// and its nets in these contexts.
pub fn designs_are_carried_in_contexts()
    ensures { DesignsAreCarriedInContexts }
{}

/// The plane of the plan, with its own start edges, shows the runs of the flat netlist.
pub fn planes_show_runs()
    ensures { PlanesShowRuns }
{}

/// The text that is written of the plan and its table carries the flat netlist.
pub fn texts_carry_flats()
    ensures { TextsCarryFlats }
{}

/// A text that carries the flat netlist of a design without a fault carries the design and its
/// nets.
pub fn designs_are_carried()
    ensures { DesignsAreCarried }
{}

/// The text that is written of the plan with bits of the inputs on its tape, and of the table of
/// that plan, runs by itself as the flat netlist does on these bits.
pub fn tapes_run_by_themselves()
    ensures { TapesRunByThemselves }
{}

/// A text that runs by itself as the flat netlist of a design without a fault also runs by itself
/// as the design.
pub fn designs_run_by_themselves()
    ensures { DesignsRunByThemselves }
{}
