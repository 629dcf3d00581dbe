// The plan of a flat netlist, by its list of cells.
ghost use Rattle.std.specs.Prelude.{◌≡◌, ◌≤◌, ◌<◌, ◌*◌, ◌^◌, ◌↔◌, min, [], true, false, length, All, IfOk, IfSome};
ghost use Rattle.grid_assembly.specs.PlanDrawing.{start_grid};
ghost use Rattle.lane_core.specs.Plans.{IsAdmissible, period_of};
ghost use Rattle.plan_layout.specs.Starts.{HasStartEdges};
ghost use Rattle.netlist_meaning.specs.Flat.{IsSound, IsWeighed};
ghost use Rattle.netlist_meaning.specs.FlatOrder.{IsOrder};
ghost use Rattle.cell_meaning.specs.Needs.{any_needs_one, covers_weight};
ghost use Rattle.plan_carries.specs.Compiled.{ComputesFlat};
ghost use Rattle.plan_ports.specs.Tables.{HasPortsOf, IsTableOf};
ghost use Rattle.pattern_writing.specs.WrittenText.{pattern_text};
ghost use Rattle.carries.specs.FlatNets.{CarriesFlat};
ghost use Rattle.netlist_plans.specs.Lists.{IsCompilable, IsPlanned, MapsFlat};
ghost use Rattle.netlist_plans.specs.NetPlaces.{HasNetPlaces};
ghost use Rattle.netlist_plans.specs.Sparing.{SparesOne, HasRoomForComplements, NamesNoOne, ComplementsNameNoOne};
ghost use Rattle.netlist_plans.specs.Planned.{CarriesByTables, ComputesCells, HasLanes, HasShortPeriod, IsSmall};

use crate::NetlistPlanError;
use cell_core::{CellList, Src};
use cell_plans::best_plan;
use cell_polarity::{KeptList, complemented};
use cell_rewriting::rewritten;
use cover_mapper::Mapped;
use lane_core::Plan;
use netlist_core::{Flat, Order, rows_weight};
use pattern_reading::Ports;
use std::alloc::Global;

/// A plan, and its port table: where its ports and nets are.
#[derive(Drop)]
pub struct Planned {
    pub plan: Plan,
    pub ports: Ports,
}

// The weight of all covers, or the greatest u64 if it is more.
fn covers_weight(flat: &Flat) -> u64
    ensures { result ≡ min (covers_weight flat.now) u64.MAX }
{
    let mut weight: u64 = 0;
    for node in flat.nodes.as_slice() {
        weight = weight.saturating_add(rows_weight(node.rows.as_slice()));
    }
    weight
}

// Whether a list has no more cells than the weight of the covers allows.
fn is_allowed(flat: &Flat, list: &CellList) -> bool
    ensures { result ≡ true ↔ length list.now.cells ≤ 2 * covers_weight flat.now }
{
    list.cells.len() as u64 <= covers_weight(flat).saturating_mul(2)
}

// The list in which what is 1 at zero is kept as its complement, if the list names constant 1 and
// does not become too long.
fn complements(
    alloc: Global,
    flat: &Flat,
    mapped: &Mapped,
) -> Result<Option<KeptList>, NetlistPlanError>
    requires sound { IsSound flat.now }
    requires maps { MapsFlat flat.now mapped.now.list mapped.now.singles.items }
    ensures maps { IfOk result (λ o. IfSome o (λ low. MapsFlat flat.now low.list low.kept.items)) }
    ensures spares { IfOk result (λ o.
        HasRoomForComplements flat.now mapped.now.list mapped.now.singles.items
        → ComplementsNameNoOne mapped.now.list o) }
{
    if !mapped.list.names_one() {
        return Ok(None);
    }
    let low = complemented(alloc, &mapped.list, &mapped.singles)?;
    if !is_allowed(flat, &low.list) {
        drop(low);
        return Ok(None);
    }
    Ok(Some(low))
}

// Lists that rewrite a list of a sound flat netlist.
fn rewritten_lists(
    alloc: Global,
    flat: &Flat,
    list: &CellList,
    kept: &[Src],
) -> Result<Vec<CellList>, NetlistPlanError>
    requires sound { IsSound flat.now }
    requires maps { MapsFlat flat.now list.now kept.now }
    ensures some { IfOk result (λ lists. 0 < length lists.items) }
    ensures computes { IfOk result (λ lists. All (ComputesFlat flat.now) lists.items) }
    ensures spares { IfOk result (λ lists. NamesNoOne list.now → All NamesNoOne lists.items) }
{
    let _flat = flat;
    rewritten(alloc, list, kept)
}

// How many cells the shortest list has.
fn fewest_cells(lists: &[CellList]) -> usize {
    let mut fewest = usize::MAX;
    for list in lists {
        fewest = fewest.min(list.cells.len());
    }
    fewest
}

// The first lists, and the others too if they are wanted anyway or one of them is shorter than each
// of the first.
fn joined(
    flat: &Flat,
    first: Vec<CellList>,
    others: Vec<CellList>,
    are_wanted: bool,
) -> Result<Vec<CellList>, NetlistPlanError>
    requires some { 0 < length first.items }
    requires first { All (ComputesFlat flat.now) first.items }
    requires others { All (ComputesFlat flat.now) others.items }
    ensures some { IfOk result (λ lists. 0 < length lists.items) }
    ensures computes { IfOk result (λ lists. All (ComputesFlat flat.now) lists.items) }
{
    let _flat = flat;
    if !are_wanted && fewest_cells(&others) >= fewest_cells(&first) {
        drop(others);
        return Ok(first);
    }
    let mut lists = first;
    let mut more = others;
    let appended = lists.append(&mut more);
    drop(more);
    match appended {
        Ok(()) => Ok(lists),
        Err(_) => {
            drop(lists);
            Err(NetlistPlanError::NoMemory)
        }
    }
}

// Lists of both kinds. If the second list names no constant 1 and there are no latches, only lists
// of that kind: so their plans have no loop.
fn lists_of_both(
    alloc: Global,
    flat: &Flat,
    mapped: &Mapped,
    low: &KeptList,
) -> Result<Vec<CellList>, NetlistPlanError>
    requires sound { IsSound flat.now }
    requires maps { MapsFlat flat.now mapped.now.list mapped.now.singles.items }
    requires low { MapsFlat flat.now low.now.list low.now.kept.items }
    ensures some { IfOk result (λ lists. 0 < length lists.items) }
    ensures computes { IfOk result (λ lists. All (ComputesFlat flat.now) lists.items) }
    ensures spares { IfOk result (λ lists. length flat.now.latches ≡ 0 → NamesNoOne low.now.list
        → All NamesNoOne lists.items) }
{
    let spares_one = !low.list.names_one();
    let low_lists = rewritten_lists(alloc, flat, &low.list, &low.kept)?;
    if spares_one && flat.latches.len() == 0 {
        return Ok(low_lists);
    }
    match rewritten_lists(alloc, flat, &mapped.list, &mapped.singles) {
        Ok(lists) => joined(flat, lists, low_lists, spares_one),
        Err(error) => {
            drop(low_lists);
            Err(error)
        }
    }
}

/// Makes lists of cells of a sound flat netlist; each list computes the netlist. `order` is an order
/// of its covers in which each cover comes after those that it reads.
pub fn cell_lists(
    alloc: Global,
    flat: &Flat,
    order: &Order,
) -> Result<Vec<CellList>, NetlistPlanError>
    requires sound { IsSound flat.now }
    requires weighed { IsWeighed flat.now }
    requires ordered { IsOrder flat.now order.now.nodes }
    ensures some { IfOk result (λ lists. 0 < length lists.items) }
    ensures computes { IfOk result (λ lists. All (ComputesFlat flat.now) lists.items) }
    ensures spares { IfOk result (λ lists. SparesOne flat.now → All NamesNoOne lists.items) }
{
    let mapped = cover_mapper::map(alloc, flat, order)?;
    match complements(alloc, flat, &mapped) {
        Ok(None) => {
            let lists = rewritten_lists(alloc, flat, &mapped.list, &mapped.singles);
            drop(mapped);
            lists
        }
        Ok(Some(low)) => {
            let lists = lists_of_both(alloc, flat, &mapped, &low);
            drop(low);
            drop(mapped);
            lists
        }
        Err(error) => {
            drop(mapped);
            Err(error)
        }
    }
}

// The plan of one of the lists of cells.
fn plan_of_cells(alloc: Global, flat: &Flat, order: &Order) -> Result<Plan, NetlistPlanError>
    requires sound { IsSound flat.now }
    requires weighed { IsWeighed flat.now }
    requires small { flat.now.weight < 2 ^ 16 }
    requires ordered { IsOrder flat.now order.now.nodes }
    ensures planned { IfOk result (IsPlanned flat.now) }
    ensures spares { IfOk result (λ plan. SparesOne flat.now → plan.latches ≡ 0) }
{
    let lists = cell_lists(alloc, flat, order)?;
    let chosen = best_plan(alloc, &lists)?;
    Ok(chosen.plan)
}

/// Makes a plan of a sound flat netlist, without a port table. `order` is an order of its covers in
/// which each cover comes after those that it reads. With each table of the plan, the text of both
/// carries the netlist.
pub fn plan_flat(alloc: Global, flat: &Flat, order: &Order) -> Result<Plan, NetlistPlanError>
    requires compilable { IsCompilable flat.now order.now.nodes }
    requires weighed { IsWeighed flat.now }
    requires small { flat.now.weight < 2 ^ 16 }
    ensures planned { IfOk result (IsPlanned flat.now) }
    ensures ports { IfOk result (HasPortsOf flat.now) }
    ensures carries { IfOk result (CarriesByTables flat.now) }
    ensures small { IfOk result (IsSmall flat.now) }
    ensures cells { IfOk result (ComputesCells flat.now) }
    ensures lanes { IfOk result (HasLanes flat.now) }
    ensures places { IfOk result (HasNetPlaces flat.now) }
    ensures period { IfOk result (λ plan.
        length flat.now.latches ≡ 0 → any_needs_one flat.now ≡ false → period_of plan ≡ 32) }
    ensures at_zero { IfOk result (λ plan. SparesOne flat.now → period_of plan ≡ 32) }
{
    plan_of_cells(alloc, flat, order)
}

/// Makes a plan of a sound flat netlist, with its port table. `order` is an order of its covers in
/// which each cover comes after those that it reads.
pub fn plan_netlist(alloc: Global, flat: &Flat, order: &Order) -> Result<Planned, NetlistPlanError>
    requires compilable { IsCompilable flat.now order.now.nodes }
    requires weighed { IsWeighed flat.now }
    requires small { flat.now.weight < 2 ^ 16 }
    ensures admissible { IfOk result (λ p. IsAdmissible p.plan) }
    ensures edges { IfOk result (λ p. HasStartEdges p.plan) }
    ensures bare { IfOk result (λ p. p.plan.tape ≡ []) }
    ensures planned { IfOk result (λ p. IsPlanned flat.now p.plan) }
    ensures table { IfOk result (λ p. IsTableOf flat.now p.plan 1 p.ports) }
    ensures carries { IfOk result (λ p. CarriesFlat (pattern_text
        (start_grid p.plan) p.ports) flat.now) }
    ensures small { IfOk result (λ p. IsSmall flat.now p.plan) }
    ensures cells { IfOk result (λ p. ComputesCells flat.now p.plan) }
    ensures lanes { IfOk result (λ p. HasLanes flat.now p.plan) }
    ensures places { IfOk result (λ p. HasNetPlaces flat.now p.plan) }
    ensures period { IfOk result (λ p. HasShortPeriod flat.now p.ports) }
    ensures at_zero { IfOk result (λ p. SparesOne flat.now → p.ports.p ≡ 32) }
{
    let plan = plan_flat(alloc, flat, order)?;
    let Ok(ports) = plan_ports::of_plan(alloc, flat, &plan, 1) else {
        drop(plan);
        return Err(NetlistPlanError::NoMemory);
    };
    Ok(Planned { plan, ports })
}
