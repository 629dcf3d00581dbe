// Whether the starts of a plan name edges of its drawing.
ghost use Rattle.std.specs.Prelude.{◌↔◌, IsTrue, MatchOption};
ghost use Rattle.lane_core.specs.Plans.{IsAdmissible};
ghost use Rattle.tiling.specs.Tiling as tiling;
ghost use Rattle.plan_layout.specs.Edges.{as_edge};
ghost use Rattle.plan_layout.specs.Layout.{tiling_of};
ghost use Rattle.plan_layout.specs.Starts.{HasCell, NamesEdge, HasStartEdges};

use lane_core::{Plan, Start};
use plan_layout::{Edge, edge_name, is_passed};

// The edge that has the cell at this `x` and `y`, if there is one.
fn edge_at(x: u64, y: u64) -> Option<Edge>
    ensures { MatchOption result ((edge : tiling.Edge) → HasCell edge x y → ⊥)
        (λ edge. HasCell (as_edge edge) x y) }
{
    let (column, lane) = (x / 32, y / 16);
    match (x % 32, y % 16) {
        (0, 8) => Some(Edge::Beside(column, lane)),
        (31, 8) => Some(Edge::Beside(column + 1, lane)),
        (16, 0) => Some(Edge::Above(column, lane)),
        (16, 15) => Some(Edge::Above(column, lane + 1)),
        _ => None,
    }
}

#[tactic(auto, using(plan_layout::proofs::Within::passed_near))]
fn names_edge(plan: &Plan, start: &Start) -> bool
    requires { IsAdmissible plan.now }
    ensures { IsTrue result ↔ NamesEdge (tiling_of plan.now) start.now }
{
    match edge_at(start.x, start.y) {
        Some(edge) => is_passed(plan, edge) && edge_name(plan, edge) == *start,
        None => false,
    }
}

/// Returns whether each start of a plan names an edge of its drawing.
pub fn has_start_edges(plan: &Plan) -> bool
    requires { IsAdmissible plan.now }
    ensures { IsTrue result ↔ HasStartEdges plan.now }
{
    plan.starts
        .list
        .as_slice()
        .iter()
        .all(|start| names_edge(plan, start))
}
