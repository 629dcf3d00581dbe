//! A law of circuits: the function does nothing, and its contract is the law.
ghost use Rattle.circuit_plans.specs.Laws.{StartsAreOfLoops};

/// The list of a circuit's starts has the starts of the loops that start with 1, in order.
pub fn starts_are_of_loops()
    ensures { StartsAreOfLoops }
{}
