//! A law of instructions: the function does nothing, and its contract is the law.
ghost use Rattle.lane_core.specs.Laws.{CommuteWhenApart};

/// Two instructions that share no lane may be done in either order.
pub fn commute_when_apart()
    ensures { CommuteWhenApart }
{}
