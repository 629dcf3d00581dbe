// Several machines on the same wires of a plan, each 32 generations after the one before.
ghost use Rattle.plan_waves.specs.ShownContexts.{PlansShowContexts, ContextsAreIsolated};
ghost use Rattle.plan_waves.specs.ContextRows.{PlansShowContextRows};

/// Heads drive an admissible plan in each context 32 generations later than in the one before, and
/// the edges at the beginning start the contexts. Drawn with any library that keeps the timing law,
/// the plan shows at its outputs and nets, context by context and cycle by cycle, the bits on their
/// lanes, and no head at any other generation. Each injection meets a conductor.
pub fn plans_show_contexts()
    ensures { PlansShowContexts }
{}

/// What such a plan shows of a context does not depend on what is injected in the others.
pub fn contexts_are_isolated()
    ensures { ContextsAreIsolated }
{}

/// An admissible plan that rows of input bits drive, with a list of rows for each context, shows at
/// its outputs and nets, context by context and cycle by cycle, what its columns make of the bits of
/// the cycle's row and of those that its loops bring.
pub fn plans_show_context_rows()
    ensures { PlansShowContextRows }
{}
