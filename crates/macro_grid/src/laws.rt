// A law of plans: the function does nothing, and its clause is the theorem.
ghost use Rattle.macro_grid.specs.Laws.{PlansStepByMacro};

/// With every library that keeps the timing law, the plane of an admissible plan with any lit edges
/// is drawn at generation 32 m with the edges after m macro steps, and at the generations between
/// each head or tail lies in a tile with a lit entry edge.
pub fn plans_step_by_macro()
    ensures { PlansStepByMacro }
{}
