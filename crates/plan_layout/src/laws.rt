//! Laws of layouts: the functions do nothing, and their contracts are the laws.
ghost use Rattle.plan_layout.specs.Laws.{PlansFitTogether, TapesFitTogether, BarePlansAreMachines};

/// The tiles of an admissible plan fit together.
pub fn plans_fit_together()
    ensures { PlansFitTogether }
{}

/// The tiles of an admissible plan and those of its tape fit together.
pub fn tapes_fit_together()
    ensures { TapesFitTogether }
{}

/// The drawing of a plan without a tape has the plan's tiles and the edges that its starts name,
/// and nothing else.
pub fn bare_plans_are_machines()
    ensures { BarePlansAreMachines }
{}
