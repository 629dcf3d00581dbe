// What comes out of the columns of an admissible plan, and comes back to them.
ghost use Rattle.plan_waves.specs.WaysBack.{LoopsHaveWaysBack, WaysBackAreApart};
ghost use Rattle.plan_waves.specs.Laws.{ColumnsPass, LoopsComeRound, BodyBeginsDark};

/// The bits at the entries of the body at any macro time leave the first c columns c macro steps
/// later, as these columns change them.
pub fn columns_pass()
    ensures { ColumnsPass }
{}

/// What is lit on the way back of a loop of an admissible plan enters the body one macro step later
/// for each tile that remains of the way. The way back begins where the loop leaves the body, and
/// meets the body again at its end alone.
pub fn loops_have_ways_back()
    ensures { LoopsHaveWaysBack }
{}

/// No edge lies on the ways back of two loops of an admissible plan, nor at two places of one way
/// back.
pub fn ways_back_are_apart()
    ensures { WaysBackAreApart }
{}

/// One period after any macro time, each loop's lane brings what all columns make of the bits that
/// entered the body then.
pub fn loops_come_round()
    ensures { LoopsComeRound }
{}

/// If no edge inside the body is lit at macro time 0, the entries of its c-th column, counted from
/// 0, are dark before macro time c.
pub fn body_begins_dark()
    ensures { BodyBeginsDark }
{}
