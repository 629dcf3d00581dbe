// Whether lanes are distinct.
ghost use Rattle.std.specs.Prelude.{◌<◌, IfOk, IsTrue};
ghost use Rattle.lane_core.specs.Places.{AreDistinctBelow};

use std::alloc::{AllocError, Global};

/// Returns whether the lanes are below the limit and no two are the same. It marks each lane that
/// it has met.
pub fn are_apart_below(alloc: Global, lanes: &[u32], limit: u32) -> Result<bool, AllocError>
    ensures { IfOk result (λ apart. IsTrue apart → AreDistinctBelow limit lanes.now) }
{
    let mut marks = vec![in alloc; false; limit as usize]?;
    for lane in lanes {
        let at = *lane as usize;
        if at >= marks.len() || marks[at] {
            return Ok(false);
        }
        marks[at] = true;
    }
    Ok(true)
}
