// Plans with a tape.
ghost use Rattle.std.specs.Prelude.{IsTrue, IfSome};
ghost use Rattle.lane_core.specs.Plans.{IsAdmissible};
ghost use Rattle.lane_core.specs.Tape.{AreTapeLists};
ghost use Rattle.plan_layout.specs.Starts.{HasStartEdges};

use crate::plans::{Written, checked, lists_of, plan_of};
use lane_core::Plan;
use lists::List;
use plan_waves::load;
use std::alloc::Global;

// Whether all lists have the same length, from 1 to 4,096.
fn are_tape_lists(lists: &[List<bool>]) -> bool
    ensures { IsTrue result → AreTapeLists lists.now }
{
    let cycles = lists.first().map_or(0, |bits| bits.len());
    lists.iter().all(|bits| 1 <= bits.len() && bits.len() <= 4096 && bits.len() == cycles)
}

// The plan with these bits on its tape. The bits fit if there is a list for each input, and all
// lists have the same length, from 1 to 4,096.
fn loaded(alloc: Global, plan: Plan, bits: &[List<bool>]) -> Option<Plan>
    ensures admissible { IfSome result IsAdmissible }
    ensures starts { IfSome result HasStartEdges }
{
    if bits.len() != plan.ins.len() || !are_tape_lists(bits) {
        drop(plan);
        return None;
    }
    match load(alloc, plan, bits) {
        Ok(plan) => checked(plan),
        Err(error) => {
            drop(error);
            None
        }
    }
}

/// Makes the plan that is written down, with these bits on its tape. There is none if the bits do not
/// fit, the plan is not admissible, or memory runs out.
pub fn taped(alloc: Global, written: &Written<'_>, bits: &[&[u8]]) -> Option<Plan>
    ensures admissible { IfSome result IsAdmissible }
    ensures starts { IfSome result HasStartEdges }
{
    let plan = plan_of(alloc, written)?;
    let mut refused = false;
    let bits = lists_of(alloc, bits, &mut refused);
    if refused {
        drop(bits);
        drop(plan);
        return None;
    }
    let plan = loaded(alloc, plan, &bits);
    drop(bits);
    plan
}
