// What the plane of a plan shows.
ghost use Rattle.plan_waves.specs.ShownEdges.{PlansShowEdges};

/// An admissible plan that is drawn with any library that keeps the timing law, and driven at its
/// inputs at multiples of 32 generations from any lit edges on, shows at the entries and exits of
/// its columns and at its outputs which edges are lit, macro time by macro time. Each injection
/// meets a conductor, at generation 0 if its edge is not lit anyway.
pub fn plans_show_edges()
    ensures { PlansShowEdges }
{}
