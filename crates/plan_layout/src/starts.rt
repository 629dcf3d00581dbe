// Which edges of a plan are lit at generation 0, and how they are named.
ghost use Rattle.std.specs.Prelude.{◌≡◌, ◌<◌, ◌^◌, ◌||◌};
ghost use Rattle.lane_core.specs.Plans.{IsAdmissible};
ghost use Rattle.plan_layout.specs.Edges.{as_edge, column_in, lane_in};
ghost use Rattle.plan_layout.specs.Layout.{tiling_of};
ghost use Rattle.plan_layout.specs.Slots.{slot_of};
ghost use Rattle.plan_layout.specs.Starts.{start_edges, edge_name, is_port, is_passed};

use crate::ports::{is_entered, is_left};
use crate::{Edge, Slot, slot_at};
use lane_core::{Plan, Start};

/// Returns whether the starts of a plan light an edge at generation 0.
pub fn is_start(plan: &Plan, edge: Edge) -> bool
    requires far { column_in (as_edge edge) < 2 ^ 58 }
    requires low { lane_in (as_edge edge) < 2 ^ 58 }
    ensures { result ≡ start_edges plan.now (as_edge edge) }
{
    match edge {
        Edge::Beside(column, lane) => {
            let (x, y) = (32 * column, 16 * lane + 8);
            plan.starts.has(x, y) || plan.starts.has(x.saturating_sub(1), y)
        }
        Edge::Above(column, lane) => {
            let (x, y) = (32 * column + 16, 16 * lane);
            plan.starts.has(x, y) || plan.starts.has(x, y.saturating_sub(1))
        }
    }
}

/// Returns the name of an edge: its entry cell, or its exit cell if nothing is entered there.
pub fn edge_name(plan: &Plan, edge: Edge) -> Start
    requires admissible { IsAdmissible plan.now }
    requires far { column_in (as_edge edge) < 2 ^ 58 }
    requires low { lane_in (as_edge edge) < 2 ^ 58 }
    ensures { result ≡ edge_name (tiling_of plan.now) (as_edge edge) }
{
    match edge {
        Edge::Beside(column, lane) => {
            let (x, y) = (32 * column, 16 * lane + 8);
            if is_entered(slot_at(plan, column, lane), (0, 8)) {
                return Start { x, y };
            }
            Start {
                x: x.saturating_sub(1),
                y,
            }
        }
        Edge::Above(column, lane) => {
            let (x, y) = (32 * column + 16, 16 * lane);
            if is_entered(slot_at(plan, column, lane), (16, 0)) {
                return Start { x, y };
            }
            Start {
                x,
                y: y.saturating_sub(1),
            }
        }
    }
}

// Whether what stands in a block is entered or left at this place of the block.
fn is_port(slot: Slot, place: (u32, u32)) -> bool
    requires { place.1 < 16 }
    ensures { result ≡ is_port (slot_of slot) place.0 place.1 }
{
    is_entered(slot, place) || is_left(slot, place)
}

/// Returns whether signals pass an edge: whether something is entered or left there.
pub fn is_passed(plan: &Plan, edge: Edge) -> bool
    requires { IsAdmissible plan.now }
    ensures { result ≡ is_passed (tiling_of plan.now) (as_edge edge) }
{
    match edge {
        Edge::Beside(column, lane) => {
            column > 0 && is_port(slot_at(plan, column - 1, lane), (31, 8))
                || is_port(slot_at(plan, column, lane), (0, 8))
        }
        Edge::Above(column, lane) => {
            lane > 0 && is_port(slot_at(plan, column, lane - 1), (16, 15))
                || is_port(slot_at(plan, column, lane), (16, 0))
        }
    }
}
