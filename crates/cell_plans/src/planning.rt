// Plans of one list of cells.
ghost use Rattle.std.specs.Prelude.{◌≡◌, max, length, IfOk, IfSome};
ghost use Rattle.cell_order.specs.Alike.{ComputeAlike};
ghost use Rattle.row_placer.specs.Placed.{IsPlacedWithin};
ghost use Rattle.cell_plans.specs.Counts.{tiles};
ghost use Rattle.cell_plans.specs.PlanOf.{IsPlannable, IsPlanOf};

use crate::PlanError;
use cell_core::CellList;
use cell_order::in_order;
use column_packer::pack;
use lane_core::{Plan, Program};
use latch_loops::close;
use order_climbing::Climbed;
use row_placer::{place, place_at};
use std::alloc::Global;
use std::slice::from_ref;

// The plan of a list by a program that computes it.
fn closed(alloc: Global, list: &CellList, program: &Program) -> Result<Plan, PlanError>
    requires short { IsPlannable list.now }
    requires placed { IsPlacedWithin list.now
        (max list.now.inputs (length list.now.outs)) program.now }
    ensures { IfOk result (IsPlanOf list.now) }
{
    let _list = list;
    let columns = pack(alloc, program)?;
    let plan = close(alloc, columns, program, from_ref(&program.latches))?;
    Ok(plan)
}

/// The plan of a list with its cells in the order in which they stand.
pub fn planned(alloc: Global, list: &CellList) -> Result<Plan, PlanError>
    requires short { IsPlannable list.now }
    ensures { IfOk result (IsPlanOf list.now) }
{
    let program = place(alloc, list)?;
    closed(alloc, list, &program)
}

// The plan of a list with its cells in the order in which they stand, with so many spare lanes and,
// if they will do, with the inputs and the dark lane on these lanes.
fn planned_at(alloc: Global, list: &CellList, spare: u32, lanes: &[u32]) -> Result<Plan, PlanError>
    requires short { IsPlannable list.now }
    ensures { IfOk result (IsPlanOf list.now) }
{
    let program = place_at(alloc, list, spare, lanes)?;
    closed(alloc, list, &program)
}

// A plan of a list, made from another list that computes alike.
#[tactic(auto, using(crate::proofs::Alike::plan_by))]
fn planned_by(alloc: Global, list: &CellList, other: &CellList) -> Result<Plan, PlanError>
    requires alike { ComputeAlike list.now other.now }
    requires short { IsPlannable list.now }
    ensures { IfOk result (IsPlanOf list.now) }
{
    let _list = list;
    planned(alloc, other)
}

// A plan of a list, made from another list that computes alike, at a draft that climbing found.
#[tactic(auto, using(crate::proofs::Alike::plan_by))]
fn planned_by_at(
    alloc: Global,
    list: &CellList,
    other: &CellList,
    found: &Climbed,
) -> Result<Plan, PlanError>
    requires alike { ComputeAlike list.now other.now }
    requires short { IsPlannable list.now }
    ensures { IfOk result (IsPlanOf list.now) }
{
    let _list = list;
    planned_at(alloc, other, found.spare, &found.lanes)
}

/// The plan of a list with its cells in another order, if they can be put in it.
pub fn ordered_plan(
    alloc: Global,
    list: &CellList,
    order: &[u32],
) -> Result<Option<Plan>, PlanError>
    requires short { IsPlannable list.now }
    ensures { IfOk result (λ plan. IfSome plan (IsPlanOf list.now)) }
{
    match in_order(alloc, list, order)? {
        None => Ok(None),
        Some(other) => {
            let plan = planned_by(alloc, list, &other)?;
            Ok(Some(plan))
        }
    }
}

/// The plan of a list at a draft that climbing found, if the cells can be put in its order.
pub fn climbed_plan(
    alloc: Global,
    list: &CellList,
    found: &Climbed,
) -> Result<Option<Plan>, PlanError>
    requires short { IsPlannable list.now }
    ensures { IfOk result (λ plan. IfSome plan (IsPlanOf list.now)) }
{
    match in_order(alloc, list, &found.order)? {
        None => Ok(None),
        Some(other) => {
            let plan = planned_by_at(alloc, list, &other, found)?;
            Ok(Some(plan))
        }
    }
}

/// Returns how many tiles the drawing of a plan has.
pub fn tiles(plan: &Plan) -> u128
    ensures { result ≡ tiles plan.now }
{
    let loops = plan.latches as u128;
    let columns = plan.columns.len() as u128 + 2 * loops;
    columns * (plan.lanes as u128 + loops)
}
