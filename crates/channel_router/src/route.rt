// The route from one lane to another.
ghost use Rattle.std.specs.Prelude.{◌<◌, IfOk};
ghost use Rattle.channel_router.specs.Routes.{Brings};

use crate::RouteError;
use lane_core::Instr;
use std::alloc::Global;

/// Returns the swaps that bring the bit of lane `from` to lane `to` on so many lanes, one for each
/// step from a lane to its neighbour. The bits of the other lanes keep their order.
pub fn bring(alloc: Global, lanes: u32, from: u32, to: u32) -> Result<Vec<Instr>, RouteError>
    requires from { from < lanes }
    requires to { to < lanes }
    ensures { IfOk result (λ instrs. Brings lanes from to instrs.items) }
{
    let mut instrs = Vec::new(alloc);
    let mut at = from;
    while at < to {
        instrs.push(Instr::Swap(at))?;
        at += 1;
    }
    while at > to {
        at -= 1;
        instrs.push(Instr::Swap(at))?;
    }
    Ok(instrs)
}
