// The plan of one of several lists of cells.
ghost use Rattle.std.specs.Prelude.{◌≡◌, ◌≤◌, ◌<◌, ◌+◌, ◌*◌, ◌^◌, [], ◌∷◌, max, length, All, IfOk, IfSome};
ghost use Rattle.cell_core.specs.Loops.{loop_count, loop_state};
ghost use Rattle.cell_meaning.specs.Computes.{ComputesByPlan};
ghost use Rattle.cell_plans.specs.Counts.{instr_count, tiles};
ghost use Rattle.cell_plans.specs.Exits.{AreAtExits};
ghost use Rattle.cell_plans.specs.PlanOf.{IsPlannable, IsPlanOf, IsPlanOfOne};
ghost use Rattle.lane_core.specs.Plans.{IsAdmissible};
ghost use Rattle.plan_layout.specs.Starts.{start_edges, HasStartEdges};
ghost use Rattle.plan_waves.specs.Contexts.{StartsContexts};
ghost use Rattle.row_placer.specs.Empty.{IsEmpty};
ghost use Rattle.row_placer.specs.Entries.{AreAtEntries};

use crate::PlanError;
use crate::planning::{climbed_plan, ordered_plan, planned, tiles};
use cell_core::CellList;
use cell_order::ending_order;
use lane_core::Plan;
use order_climbing::{Climbed, Start, climb};
use std::alloc::Global;
use std::ops::Range;
use std::slice::from_ref;

// The most cells of a list for which all orders are tried.
const LONG_LIST: usize = 4096;

// How many loops a list has for each of its cells, at least, if its cells are few beside them.
const LOOPS_FOR_A_CELL: usize = 16;

// With so many loops a list is dear to place.
const MANY_LOOPS: usize = 1024;

/// A plan, and the number of the list that it computes.
#[derive(Drop)]
pub struct Chosen {
    pub plan: Plan,
    pub list: usize,
}

// The plan with fewer tiles, and the first if both have as many.
fn smaller(lists: &[CellList], first: Chosen, second: Chosen) -> Chosen
    requires first { IsPlanOfOne lists.now first.list first.plan }
    requires second { IsPlanOfOne lists.now second.list second.plan }
    ensures plan { IsPlanOfOne lists.now result.list result.plan }
    ensures no_larger { (tiles result.plan ≤ tiles first.plan)
        × (tiles result.plan ≤ tiles second.plan) }
{
    let _lists = lists;
    if tiles(&second.plan) < tiles(&first.plan) {
        second
    } else {
        first
    }
}

// Whether the lanes of a list's loops make its drawing large: there are many of them, or few cells
// beside them.
fn is_mostly_loops(list: &CellList) -> bool {
    list.latches.len() >= MANY_LOOPS
        || list.cells.len().saturating_mul(LOOPS_FOR_A_CELL) <= list.latches.len()
}

// The reaches for which orders are tried: 2, 3 and 4, or 3 alone for a list that is long or mostly
// loops, whose placing takes long; 3 serves best. With fewer than two cells there is one order, and
// with many loops only the list's own is tried.
fn reaches(list: &CellList) -> Range<u32> {
    if list.cells.len() < 2 || list.latches.len() >= MANY_LOOPS {
        2..2
    } else if list.cells.len() > LONG_LIST || is_mostly_loops(list) {
        3..4
    } else {
        2..5
    }
}

// The cells of a list in the order in which they stand, by their numbers.
fn own_order(alloc: Global, list: &CellList) -> Result<Vec<u32>, PlanError> {
    let mut order = Vec::with_capacity(alloc, list.cells.len())?;
    for cell in 0..list.cells.len() {
        if let Ok(number) = u32::try_from(cell) {
            order.push(number)?;
        }
    }
    Ok(order)
}

// Adds the orders of a list that are tried: its own and a few others.
fn push_starts(
    alloc: Global,
    list: &CellList,
    number: usize,
    starts: &mut Vec<Start>,
) -> Result<(), PlanError> {
    let order = own_order(alloc, list)?;
    starts.push(Start {
        list: number,
        order,
    })?;
    for reach in reaches(list) {
        let order = ending_order(alloc, list, reach)?;
        starts.push(Start {
            list: number,
            order,
        })?;
    }
    Ok(())
}

// Whether the orders of a list are tried: those of a list that is mostly loops are tried only if
// each list before it has more cells.
fn is_tried(lists: &[CellList], number: usize) -> bool
    requires { number < length lists.now }
{
    if is_mostly_loops(&lists[number]) {
        for before in 0..number {
            if lists[before].cells.len() <= lists[number].cells.len() {
                return false;
            }
        }
    }
    true
}

// The orders of the lists that are tried, the first list's own at the front.
fn starts_of(alloc: Global, lists: &[CellList]) -> Result<Vec<Start>, PlanError> {
    let mut starts = Vec::new(alloc);
    for number in 0..lists.len() {
        if is_tried(lists, number) {
            push_starts(alloc, &lists[number], number, &mut starts)?;
        }
    }
    Ok(starts)
}

// The plan of the first list with its cells in the order in which they stand.
fn first_plan(alloc: Global, lists: &[CellList]) -> Result<Chosen, PlanError>
    requires some { 0 < length lists.now }
    requires short { All IsPlannable lists.now }
    ensures { IfOk result (λ chosen. IsPlanOfOne lists.now chosen.list chosen.plan) }
{
    let plan = planned(alloc, &lists[0])?;
    Ok(Chosen { plan, list: 0 })
}

// The chosen plan, or that of a list in another order if it has fewer tiles.
fn better_in_order(
    alloc: Global,
    lists: &[CellList],
    chosen: Chosen,
    start: &Start,
) -> Result<Chosen, PlanError>
    requires chosen { IsPlanOfOne lists.now chosen.list chosen.plan }
    requires short { All IsPlannable lists.now }
    ensures plan { IfOk result (λ next. IsPlanOfOne lists.now next.list next.plan) }
    ensures no_larger { IfOk result (λ next. tiles next.plan ≤ tiles chosen.plan) }
{
    if start.list >= lists.len() {
        return Ok(chosen);
    }
    match ordered_plan(alloc, &lists[start.list], &start.order)? {
        None => Ok(chosen),
        Some(plan) => {
            let next = Chosen {
                plan,
                list: start.list,
            };
            Ok(smaller(lists, chosen, next))
        }
    }
}

// The smallest of the plans of the lists in these orders, of which the first is the first list's
// own.
fn best_plain(alloc: Global, lists: &[CellList], starts: &[Start]) -> Result<Chosen, PlanError>
    requires some { 0 < length lists.now }
    requires short { All IsPlannable lists.now }
    ensures { IfOk result (λ chosen. IsPlanOfOne lists.now chosen.list chosen.plan) }
{
    let mut best = first_plan(alloc, lists)?;
    for number in 1..starts.len() {
        best = better_in_order(alloc, lists, best, &starts[number])?;
    }
    Ok(best)
}

// The chosen plan, or the one that climbing found if it has fewer tiles.
fn better(
    alloc: Global,
    lists: &[CellList],
    chosen: Chosen,
    found: &Climbed,
) -> Result<Chosen, PlanError>
    requires chosen { IsPlanOfOne lists.now chosen.list chosen.plan }
    requires within { found.now.list < length lists.now }
    requires short { All IsPlannable lists.now }
    ensures plan { IfOk result (λ next. IsPlanOfOne lists.now next.list next.plan) }
    ensures no_larger { IfOk result (λ next. tiles next.plan ≤ tiles chosen.plan) }
{
    if found.tiles as u128 >= tiles(&chosen.plan) {
        return Ok(chosen);
    }
    match climbed_plan(alloc, &lists[found.list], found)? {
        None => Ok(chosen),
        Some(plan) => {
            let next = Chosen {
                plan,
                list: found.list,
            };
            Ok(smaller(lists, chosen, next))
        }
    }
}

/// Returns a plan of one of the lists: of those that were tried, the one with the fewest tiles. It
/// tries each list in a few orders of its cells, and the list, order, lanes of inputs and number of
/// lanes that climbing from these orders finds.
pub fn best_plan(alloc: Global, lists: &[CellList]) -> Result<Chosen, PlanError>
    requires some { 0 < length lists.now }
    requires short { All IsPlannable lists.now }
    ensures { IfOk result (λ chosen. IsPlanOfOne lists.now chosen.list chosen.plan) }
{
    let starts = starts_of(alloc, lists)?;
    let chosen = best_plain(alloc, lists, &starts)?;
    match climb(alloc, lists, &starts)? {
        None => Ok(chosen),
        Some(found) => better(alloc, lists, chosen, &found),
    }
}

// The plan of one list.
#[tactic(auto, using(crate::proofs::Single::one_short))]
fn one_plan(alloc: Global, list: &CellList) -> Result<Plan, PlanError>
    requires short { IsPlannable list.now }
    ensures { IfOk result (IsPlanOf list.now) }
{
    let chosen = best_plan(alloc, from_ref(list))?;
    Ok(chosen.plan)
}

/// Returns the plan of one list, chosen as by `best_plan`. In each cycle its outputs, its loops and
/// its nets have the bits of their sources.
pub fn plan_of(alloc: Global, list: &CellList) -> Result<Plan, PlanError>
    requires small { list.now.inputs
        + loop_count list.now
        + length list.now.outs
        + length list.now.cells
        < 2 ^ 18 }
    ensures admissible { IfOk result IsAdmissible }
    ensures edges { IfOk result HasStartEdges }
    ensures starts { IfOk result (λ plan.
        StartsContexts plan (loop_state list.now list.now.starts ∷ []) (start_edges plan)
        ) }
    ensures computes { IfOk result (ComputesByPlan list.now) }
    ensures lanes { IfOk result (λ plan.
        plan.lanes
        ≤ list.now.inputs
        + 2 * loop_count list.now
        + length list.now.outs
        + length list.now.cells
        + 2
        + max list.now.inputs (length list.now.outs)
        ) }
    ensures empty { IfOk result (λ plan. IsEmpty list.now → plan.lanes ≡ 0) }
    ensures entries { IfOk result (λ plan. AreAtEntries list.now plan.lanes plan.ins plan.nets) }
    ensures exits { IfOk result (λ plan. AreAtExits list.now plan.columns plan.nets) }
    ensures instrs { IfOk result (λ plan.
        instr_count plan.columns
        ≤ (3 * length list.now.cells + length list.now.outs + 2 * loop_count list.now)
        * plan.lanes
        ) }
    ensures columns { IfOk result (λ plan.
        length plan.columns
        ≤ (3 * length list.now.cells + length list.now.outs + 2 * loop_count list.now + 1)
        * (plan.lanes + 1)
        ) }
{
    one_plan(alloc, list)
}
