// One tile back along a way.
ghost use Rattle.std.specs.Prelude.{◌≡◌, ◌<◌, ◌^◌};
ghost use Rattle.tiling.specs.Tiling.{edge_of};
ghost use Rattle.lane_core.specs.Plans.{IsAdmissible};
ghost use Rattle.plan_layout.specs.Edges.{as_edge, column_in, lane_in};
ghost use Rattle.plan_layout.specs.Layout.{tiling_of};
ghost use Rattle.plan_layout.specs.Slots.{slot_of};
ghost use Rattle.plan_waves.specs.WaysBack.{way_in, tile_before};

use lane_core::Plan;
use plan_layout::{Edge, Piece, Slot, is_left, slot_at};

// The edge at a port, which is given by its place in the box of a piece whose first block is at
// this tile column and lane.
fn port_edge(column: u64, lane: u64, port: (u32, u32)) -> Edge
    requires far { column < 2 ^ 62 }
    requires low { lane < 2 ^ 62 }
    ensures { as_edge result ≡ edge_of column lane port }
{
    let (x, y) = port;
    if x == 0 {
        Edge::Beside(column, lane + y as u64 / 16)
    } else if x == 31 {
        Edge::Beside(column + 1, lane + y as u64 / 16)
    } else if y == 0 {
        Edge::Above(column, lane)
    } else {
        Edge::Above(column, lane + (y as u64 + 1) / 16)
    }
}

// The edge at which a signal has entered a block that it leaves on the way back of a loop.
fn way_in(column: u64, lane: u64, slot: Slot) -> Edge
    requires far { column < 2 ^ 62 }
    requires low { lane < 2 ^ 62 }
    ensures { as_edge result ≡ way_in column lane (slot_of slot) }
{
    match slot {
        Slot::Nothing => Edge::Beside(column, lane),
        Slot::Whole(Piece::Tile(kind)) => port_edge(column, lane, kind.entries()[0]),
        Slot::Upper(Piece::Tile(kind)) => port_edge(column, lane, kind.entries()[1]),
        Slot::Lower(Piece::Tile(kind)) => {
            port_edge(column, lane.saturating_sub(1), kind.entries()[0])
        }
        Slot::Whole(Piece::Output) => port_edge(column, lane, (0, 8)),
        Slot::Upper(Piece::Output) => port_edge(column, lane, (0, 0)),
        Slot::Lower(Piece::Output) => port_edge(column, lane.saturating_sub(1), (0, 8)),
    }
}

/// Returns the edge one tile back from an edge, through the one of the two blocks that meet there
/// which is left at the edge.
pub fn tile_before(plan: &Plan, edge: Edge) -> Edge
    requires admissible { IsAdmissible plan.now }
    requires far { column_in (as_edge edge) < 2 ^ 62 }
    requires low { lane_in (as_edge edge) < 2 ^ 62 }
    ensures { as_edge result ≡ tile_before (tiling_of plan.now) (as_edge edge) }
{
    match edge {
        Edge::Beside(column, lane) => {
            let slot = slot_at(plan, column, lane);
            if is_left(slot, (0, 8)) {
                return way_in(column, lane, slot);
            }
            let before = column.saturating_sub(1);
            way_in(before, lane, slot_at(plan, before, lane))
        }
        Edge::Above(column, lane) => {
            let slot = slot_at(plan, column, lane);
            if is_left(slot, (16, 0)) {
                return way_in(column, lane, slot);
            }
            let above = lane.saturating_sub(1);
            way_in(column, above, slot_at(plan, column, above))
        }
    }
}
