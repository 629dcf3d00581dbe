// A plan is a machine whose state lies on the lanes of its loops.
ghost use Rattle.plan_waves.specs.Cycles.{EdgesRunByCycles};

/// In cycles that are counted from any macro time on, the bits at the entries of each column of an
/// admissible plan depend only on the free entries when these cycles begin, and on the loops'
/// entries at the first.
pub fn edges_run_by_cycles()
    ensures { EdgesRunByCycles }
{}
