// The period at which gates are used.
ghost use Rattle.std.specs.Prelude.{◌<◌, IsTrue};
ghost use Rattle.gate_library.specs.Lawful.{FitsPeriod};

use gate_library::{GateDrawing, Timing};

/// Returns whether a gate can be used at this period. One whose inputs are lit apart can be if these are never lit less
/// than its time apart.
pub fn fits_period(drawing: &GateDrawing, period: u64, later: u32) -> bool
    requires some { 0 < period }
    ensures { IsTrue result → FitsPeriod drawing.now.timing drawing.now.time period later }
{
    let time = u64::from(drawing.time);
    let within = u64::from(later) % period;
    match drawing.timing {
        Timing::Together => time <= period,
        Timing::Apart => time <= within && time <= period - within,
    }
}
