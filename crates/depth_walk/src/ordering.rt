// An order of numbers, or a circle.
ghost use Rattle.std.specs.Prelude.{IfOk, IfErr};
ghost use Rattle.depth_walk.specs.Links.{StayWithin};
ghost use Rattle.depth_walk.specs.Order.{IsOrderOf};
ghost use Rattle.depth_walk.specs.Reasons.{IsWalkRefusal};

use crate::error::WalkError;
use crate::walk::Walk;
use lists::List;
use std::alloc::Global;

/// Orders numbers so that each comes after those that it leads to. `links` has a list of steps for
/// each number, from 0 on: a step leads to a number, or to none. `Circle` comes if numbers lead to
/// each other in a circle.
pub fn order(alloc: Global, links: &[List<Option<usize>>]) -> Result<List<usize>, WalkError>
    requires { StayWithin links.now }
    ensures order { IfOk result (IsOrderOf links.now) }
    ensures refused { IfErr result (IsWalkRefusal links.now) }
{
    let mut walk = Walk::start(alloc, links)?;
    for n in 0..links.len() {
        walk.reach(alloc, links, n)?;
    }
    Ok(List::of(walk.order))
}
