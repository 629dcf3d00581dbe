// The starts of all loops in all contexts.
ghost use Rattle.std.specs.Prelude.{◌≡◌, ◌<◌, ◌≤◌, ◌++◌, length, All, IfOk, OnOk};
ghost use Rattle.lists.specs.Items.{alone_if};
ghost use Rattle.lane_core.specs.Plans.{IsAdmissible};
ghost use Rattle.plan_layout.specs.Layout.{tiling_of};
ghost use Rattle.plan_layout.specs.Starts.{named_edges, NamesEdge};
ghost use Rattle.plan_waves.specs.Contexts.{contexts_on_ways, StartsContexts};
ghost use Rattle.latch_loops.specs.Starts.{starts_of_loop};

use crate::walking::tile_before;
use lane_core::{Plan, Start, Starts};
use lists::List;
use plan_layout::{Edge, edge_name};
use std::alloc::{AllocError, Global};

// Puts a start at the end, if the bit is 1.
fn push_if(found: &mut Vec<Start>, bit: bool, start: Start) -> Result<(), AllocError>
    ensures { OnOk result (found.new.items ≡ found.old.items ++ alone_if bit start) }
{
    if bit {
        found.push(start)?;
    }
    Ok(())
}

// Puts the starts of a loop at the end, context after context, from the loop's entry backwards.
#[tactic(auto, using(crate::proofs::Near::begun, crate::proofs::Near::far_enough, crate::proofs::Near::one_more))]
fn push_loop(
    found: &mut Vec<Start>,
    plan: &Plan,
    starts: &[List<bool>],
    number: u32,
) -> Result<(), AllocError>
    requires admissible { IsAdmissible plan.now }
    requires fit { length starts.now ≤ contexts_on_ways plan.now }
    requires long { All (λ bits. length bits ≡ plan.now.latches) starts.now }
    requires known { number < plan.now.latches }
    ensures { OnOk result (
        found.new.items
        ≡ found.old.items ++ starts_of_loop plan.now starts.now number (length starts.now)
        ) }
{
    let lane = (plan.lanes - plan.latches) as u64 + number as u64;
    let mut edge = Edge::Beside(plan.latches as u64, lane);
    for bits in starts {
        push_if(found, *bits.get(number as usize), edge_name(plan, edge))?;
        edge = tile_before(plan, edge);
    }
    Ok(())
}

/// Returns the names of the edges that are lit at generation 0 if the loops of a plan start with
/// these bits. `starts` has a list for each context, with a bit for each loop. The edges of context
/// c lie c tiles before the loops' entries, on their ways back. There are no more contexts than
/// tiles on a way back, and no more than one without loops.
pub fn starts_of(alloc: Global, plan: &Plan, starts: &[List<bool>]) -> Result<Starts, AllocError>
    requires admissible { IsAdmissible plan.now }
    requires fit { length starts.now ≤ contexts_on_ways plan.now }
    requires long { All (λ bits. length bits ≡ plan.now.latches) starts.now }
    ensures edges { IfOk result (λ s. All (NamesEdge (tiling_of plan.now)) s.list) }
    ensures contexts { IfOk result (λ s. StartsContexts plan.now starts.now (named_edges s.list)) }
{
    let mut found = Vec::new(alloc);
    for number in 0..plan.latches {
        push_loop(&mut found, plan, starts, number)?;
    }
    Ok(Starts::of(found))
}
