// What stands beside the ports of a plan.
ghost use Rattle.plan_waves.specs.Beside.{PortsStandFree};

/// With any library, and whichever edges are lit, the plane of an admissible plan is empty on the
/// rows of each input's lane west of the input's cell, and on those of each output's lane east of
/// the output's cell.
pub fn ports_stand_free()
    ensures { PortsStandFree }
{}
