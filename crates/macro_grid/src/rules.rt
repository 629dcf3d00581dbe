// Which plans can be drawn.
ghost use Rattle.std.specs.Prelude.{◌≡◌, ◌+◌, ◌-◌, ◌<◌, ◌≤◌, ◌↔◌, IsTrue, All, length};
ghost use Rattle.lane_core.specs.Columns.{IsColumnOnLanes};
ghost use Rattle.lane_core.specs.Instrs.{IsOnLanes};
ghost use Rattle.lane_core.specs.Places.{IsPlaceWithin};
ghost use Rattle.lane_core.specs.Plans.{IsAdmissible, HasFittingSize};
ghost use Rattle.lane_core.specs.Tape.{HasFittingTape};
ghost use Rattle.tiling.specs.Matched.{IsMatched};
ghost use Rattle.plan_layout.specs.Tape.{drawn_tiling};
ghost use Rattle.plan_layout.specs.Starts.{HasStartEdges};

use crate::ports::are_distinct_below;
use crate::starts::has_start_edges;
use lane_core::{Column, Instr, NetPlace, Plan, tape_cycles};
use lists::List;

/// Returns whether a plan keeps the rules that a drawing of it needs, and each of its starts names
/// an edge of the drawing. It takes no memory but 64 KiB of the stack. For each span of 65,536
/// lanes that has ports of a list, it clears these 64 KiB and goes over the list twice; it goes
/// over the list twice more, and over all else once.
pub fn admissible(plan: &Plan) -> bool
    ensures exact { IsTrue result ↔ (IsAdmissible plan.now × HasStartEdges plan.now) }
    // the tiles of such a plan's drawing fit together
    ensures matched { IsTrue result → IsMatched (drawn_tiling plan.now) }
{
    keeps_rules(plan) && has_start_edges(plan)
}

fn keeps_rules(plan: &Plan) -> bool
    ensures { IsTrue result ↔ IsAdmissible plan.now }
{
    if !has_fitting_size(plan) {
        return false;
    }
    let free = plan.lanes - plan.latches;
    if !are_distinct_below(plan.ins.as_slice(), free) {
        return false;
    }
    if !are_distinct_below(plan.outs.as_slice(), free) {
        return false;
    }
    if !are_columns_on_lanes(plan.columns.as_slice(), plan.lanes) {
        return false;
    }
    if !are_places_within(plan.nets.as_slice(), plan.lanes, plan.columns.len() as u64) {
        return false;
    }
    has_fitting_tape(plan)
}

fn are_on_lanes(instrs: &[Instr], lanes: u32) -> bool
    ensures { IsTrue result ↔ All (IsOnLanes lanes) instrs.now }
{
    instrs
        .iter()
        .all(|instr| (instr.lane() as u64) + 1 < lanes as u64)
}

fn are_columns_on_lanes(columns: &[Column], lanes: u32) -> bool
    ensures { IsTrue result ↔ All (IsColumnOnLanes lanes) columns.now }
{
    columns
        .iter()
        .all(|column| are_on_lanes(column.instrs.as_slice(), lanes))
}

fn is_place_within(place: &NetPlace, lanes: u32, steps: u64) -> bool
    ensures { IsTrue result ↔ IsPlaceWithin lanes steps place.now }
{
    if place.lane >= lanes {
        return false;
    }
    match place.after {
        None => true,
        Some(step) => step < steps,
    }
}

fn are_places_within(places: &[NetPlace], lanes: u32, steps: u64) -> bool
    ensures { IsTrue result ↔ All (IsPlaceWithin lanes steps) places.now }
{
    places
        .iter()
        .all(|place| is_place_within(place, lanes, steps))
}

// Whether each list has this many bits, which is from 1 to 4,096.
fn are_tape_lists(lists: &[List<bool>], cycles: usize) -> bool
    ensures { IsTrue result ↔
        All (λ bits. (1 ≤ length bits) × (length bits ≤ 4096) × (length bits ≡ cycles)) lists.now }
{
    lists.iter().all(|bits| 1 <= bits.len() && bits.len() <= 4096 && bits.len() == cycles)
}

fn has_fitting_tape(plan: &Plan) -> bool
    ensures { IsTrue result ↔ HasFittingTape plan.now }
{
    if plan.tape.len() != 0 && plan.tape.len() != plan.ins.len() {
        return false;
    }
    are_tape_lists(plan.tape.as_slice(), tape_cycles(plan))
}

fn has_fitting_size(plan: &Plan) -> bool
    ensures { IsTrue result ↔ HasFittingSize plan.now }
{
    let columns = plan.columns.len() as u64;
    columns < 1 << 40
        && (plan.lanes == 0) == (columns == 0)
        && plan.latches <= plan.lanes
        && plan.latches as u64 <= columns
}
