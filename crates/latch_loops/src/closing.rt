// Plans made of columns.
ghost use Rattle.std.specs.Prelude.{◌≡◌, ◌<◌, ◌≤◌, ◌*◌, ◌^◌, All, length, IfOk};
ghost use Rattle.lane_core.specs.Plans.{IsAdmissible, period_of};
ghost use Rattle.lane_core.specs.declared.plan.Plan as plan_of;
ghost use Rattle.column_packer.specs.Packing.{IsPacked};
ghost use Rattle.plan_layout.specs.Starts.{start_edges, HasStartEdges};
ghost use Rattle.plan_waves.specs.Contexts.{StartsContexts};
ghost use Rattle.latch_loops.specs.Closed.{contexts_limit, IsClosed, DoesAsProgram};

use crate::CloseError;
use crate::places::closed_places;
use crate::starting::{padded, start_contexts};
use column_packer::column_numbers;
use lane_core::{Column, Plan, Program, Starts};
use lists::List;
use std::alloc::Global;

/// Returns how many contexts, each 32 generations after the one before, fit into the period of the
/// plan that `close` makes of a program and its columns for one context.
#[tactic(auto, using(crate::proofs::Limits::limit_is_period))]
pub fn most_contexts(columns: &[Column], program: &Program) -> u64
    requires few { length columns.now < 2 ^ 40 }
    ensures exact { result ≡ contexts_limit columns.now program.now }
    ensures period { (plan : plan_of.Plan)
        → IsClosed program.now columns.now 1 plan
        → period_of plan ≡ 32 * result }
{
    let _lanes = program.lanes;
    let loops = program.latches.len() as u64;
    if loops == 0 {
        return 1;
    }
    let columns = columns.len() as u64;
    2 * columns.max(loops) + 4 * loops
}

// The plan without starts.
fn unstarted(alloc: Global, columns: Vec<Column>, program: &Program) -> Result<Plan, CloseError>
    requires packed { IsPacked program.now.instrs columns.items }
    requires few { length columns.items < 2 ^ 40 }
    ensures admissible { IfOk result IsAdmissible }
    ensures closed { IfOk result (IsClosed program.now columns.items 0) }
    ensures same { IfOk result (DoesAsProgram program.now) }
{
    let lanes = program.lanes;
    let instrs = program.instrs.as_slice();
    let numbers = column_numbers(alloc, lanes, instrs)?;
    let nets = closed_places(alloc, program.nets.as_slice(), instrs, &numbers)?;
    let least = program.latches.len().max(lanes.min(1) as usize);
    let columns = padded(alloc, columns, least)?;
    let ins = program.ins.as_slice().to_vec(alloc)?;
    let outs = program.outs.as_slice().to_vec(alloc)?;
    Ok(Plan {
        lanes,
        columns: List::of(columns),
        latches: program.latches.len() as u32,
        starts: Starts::of(Vec::new(alloc)),
        ins: List::of(ins),
        outs: List::of(outs),
        nets: List::of(nets),
        tape: List::of(Vec::new(alloc)),
    })
}

/// Makes a plan of a program and of the columns that `pack` gives for it. `starts` has a list for
/// each context, with the bits with which its loops start. If there are fewer columns than loops,
/// or lanes without a column, or too few columns for the starts of all contexts, `close` adds
/// columns without instructions. The place of a net becomes the exit of the column of the last
/// instruction up to there that works on its lane, or the entry of the first column if there is
/// none; `close` looks for this instruction back from the place.
pub fn close(
    alloc: Global,
    columns: Vec<Column>,
    program: &Program,
    starts: &[List<bool>],
) -> Result<Plan, CloseError>
    requires packed { IsPacked program.now.instrs columns.items }
    requires few { length columns.items < 2 ^ 40 }
    requires fit { length starts.now ≤ contexts_limit columns.items program.now }
    requires long { All (λ bits. length bits ≡ length program.now.latches) starts.now }
    requires fewer { 1 < length starts.now → length columns.items < 2 ^ 39 }
    ensures admissible { IfOk result IsAdmissible }
    ensures edges { IfOk result HasStartEdges }
    ensures closed { IfOk result (IsClosed program.now columns.items (length starts.now)) }
    ensures same { IfOk result (DoesAsProgram program.now) }
    ensures contexts { IfOk result (λ plan. StartsContexts plan starts.now (start_edges plan)) }
{
    let bare = unstarted(alloc, columns, program)?;
    let plan = start_contexts(alloc, bare, starts)?;
    Ok(plan)
}
