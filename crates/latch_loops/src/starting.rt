// Plans in several contexts.
ghost use Rattle.std.specs.Prelude.{◌≡◌, ◌<◌, ◌≤◌, ◌^◌, All, length, IfOk};
ghost use Rattle.lane_core.specs.Plans.{IsAdmissible};
ghost use Rattle.lane_core.specs.Tape.{cycle_tiles};
ghost use Rattle.plan_layout.specs.Starts.{start_edges, HasStartEdges};
ghost use Rattle.plan_waves.specs.Contexts.{StartsContexts};
ghost use Rattle.latch_loops.specs.Closed.{contexts_size, IsPadded};
ghost use Rattle.latch_loops.specs.Padded.{IsPaddedPlan, DoesAsPlan};

use crate::{CloseError, starts_of};
use lane_core::{Column, Plan};
use lists::List;
use std::alloc::Global;

/// Adds columns without instructions, if there are fewer than `size`.
pub fn padded(alloc: Global, columns: Vec<Column>, size: usize) -> Result<Vec<Column>, CloseError>
    ensures { IfOk result (λ v. IsPadded size columns.items v.items) }
{
    let mut columns = columns;
    while columns.len() < size {
        columns.push(Column {
            instrs: List::of(Vec::new(alloc)),
        })?;
    }
    Ok(columns)
}

// How many columns a plan of so many loops needs, so that the starts of so many contexts lie on the
// ways back.
fn contexts_size(loops: u32, contexts: usize) -> usize
    ensures { result ≡ contexts_size loops contexts }
{
    if loops == 0 {
        0
    } else {
        contexts.saturating_sub(4 * loops as usize)
    }
}

/// Returns a plan in several contexts. `starts` has a list for each context, with the bits with
/// which its loops start; there are no more contexts than macro steps in the plan's period. If
/// there are loops and too few columns for all starts to lie on the loops' ways back, columns
/// without instructions are added.
#[tactic(auto, using(crate::proofs::PaddedPlans::padded_admissible, crate::proofs::PaddedPlans::room, crate::proofs::PaddedPlans::does_as_plan))]
pub fn start_contexts(alloc: Global, plan: Plan, starts: &[List<bool>]) -> Result<Plan, CloseError>
    requires admissible { IsAdmissible plan }
    requires fit { length starts.now ≤ cycle_tiles plan }
    requires long { All (λ bits. length bits ≡ plan.latches) starts.now }
    requires few { 1 < length starts.now → length plan.columns < 2 ^ 39 }
    ensures admissible { IfOk result IsAdmissible }
    ensures edges { IfOk result HasStartEdges }
    ensures padded { IfOk result
        (IsPaddedPlan (contexts_size plan.latches (length starts.now)) plan) }
    ensures same { IfOk result (DoesAsPlan plan) }
    ensures contexts { IfOk result (λ p. StartsContexts p starts.now (start_edges p)) }
{
    let size = contexts_size(plan.latches, starts.len());
    let columns = padded(alloc, plan.columns.into_vec(), size)?;
    let mut plan = Plan {
        lanes: plan.lanes,
        columns: List::of(columns),
        latches: plan.latches,
        starts: plan.starts,
        ins: plan.ins,
        outs: plan.outs,
        nets: plan.nets,
        tape: plan.tape,
    };
    plan.starts = starts_of(alloc, &plan, starts)?;
    Ok(plan)
}
