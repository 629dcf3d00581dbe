// Runs of equal cells in a row, block by block.
ghost use Rattle.std.specs.Prelude.{◌≡◌, ◌-◌, ◌<◌, ◌≤◌, ◌^◌, ◌/◌, ◌%◌, pos};
ghost use Rattle.lane_core.specs.Plans.{IsAdmissible};
ghost use Rattle.plan_layout.specs.Tape.{drawn_edges, drawn_plane, drawn_tiling};
ghost use Rattle.plan_layout.specs.Slots.{piece_of, slot_of};
ghost use Rattle.tile_library.specs.Drawings.{shipped_drawing};
ghost use Rattle.tiling.specs.Tiling.{drawn_piece, drawn_slot};
ghost use Rattle.tiling.specs.Tiling.Piece.{Tile};
ghost use Rattle.tile_library.specs.RowRuns.{IsRowRun};

use crate::cells::{is_row_dark, output_cell, tile_cell};
use lane_core::Plan;
use plan_layout::{Piece, Slot, slot_drawn_at};
use tile_core::Kind;
use tile_library::Shipped;
use ww_rule::State;

// A run of equal cells of a tile whose first block is at this tile column and lane, from a place in
// the tile's box on.
fn tile_run(plan: &Plan, column: u64, lane: u64, kind: Kind, place: (u32, u32)) -> (State, u32)
    requires admissible { IsAdmissible plan.now }
    requires far { column < 2 ^ 57 }
    requires low { lane < 2 ^ 57 }
    requires in_box { place.0 < 32 }
    ensures { IsRowRun (λ x. drawn_piece shipped_drawing (drawn_edges plan.now) column lane
        (Tile kind) x place.1)
        place.0 (32 - place.0) result }
{
    if Shipped.is_row_blank(kind, place.1) {
        return (State::Empty, 32 - place.0);
    }
    let (drawn, count) = Shipped.run_at(kind, place.0, place.1);
    if !drawn {
        (State::Empty, count)
    } else if is_row_dark(plan, column, lane, kind, place.1) {
        (State::Conductor, count)
    } else {
        (tile_cell(plan, column, lane, kind, place), 1)
    }
}

// A run of equal cells of a piece whose first block is at this tile column and lane, from a place
// in the piece's box on.
fn piece_run(plan: &Plan, column: u64, lane: u64, piece: Piece, place: (u32, u32)) -> (State, u32)
    requires admissible { IsAdmissible plan.now }
    requires far { column < 2 ^ 57 }
    requires low { lane < 2 ^ 57 }
    requires in_box { place.0 < 32 }
    ensures { IsRowRun (λ x. drawn_piece shipped_drawing (drawn_edges plan.now) column lane
        (piece_of piece) x place.1)
        place.0 (32 - place.0) result }
{
    match piece {
        Piece::Tile(kind) => tile_run(plan, column, lane, kind, place),
        Piece::Output => (output_cell(plan, column, lane, place), 1),
    }
}

// A run of equal cells of the block of this tile column and lane, in which `slot` stands, from a
// place in the block on.
fn slot_run(plan: &Plan, column: u64, lane: u64, slot: Slot, x: u32, y: u32) -> (State, u32)
    requires admissible { IsAdmissible plan.now }
    requires slot { slot_of slot ≡ drawn_tiling plan.now column lane }
    requires in_box { x < 32 }
    requires in_block { y < 16 }
    ensures { IsRowRun (λ x. drawn_slot shipped_drawing (drawn_edges plan.now) column lane
        (slot_of slot) x y)
        x (32 - x) result }
{
    match slot {
        Slot::Nothing => (State::Empty, 32 - x),
        Slot::Whole(piece) | Slot::Upper(piece) => piece_run(plan, column, lane, piece, (x, y)),
        Slot::Lower(piece) => {
            piece_run(plan, column, lane.saturating_sub(1), piece, (x, y + 16))
        }
    }
}

/// Returns the state of the cell at column `x` and row `y`, in whose block `slot` stands, and a
/// number of cells from it eastward that all have this state: from 1 to `limit`, and none beyond
/// the block. Beside an electron the number may be less than the run's length.
pub fn run_in(plan: &Plan, slot: Slot, y: u64, x: u64, limit: u64) -> (State, u64)
    requires admissible { IsAdmissible plan.now }
    requires slot { slot_of slot ≡ drawn_tiling plan.now (x / 32) (y / 16) }
    requires some { 1 ≤ limit }
    ensures run { IsRowRun (λ x. drawn_plane shipped_drawing plan.now (pos x)
        (pos y)) x limit result }
    ensures in_block { result.1 ≤ 32 - x % 32 }
{
    let (column, lane) = (x / 32, y / 16);
    let (state, count) = slot_run(plan, column, lane, slot, (x % 32) as u32, (y % 16) as u32);
    (state, limit.min(count as u64))
}

/// Returns the state of the cell at column `x` and row `y`, and a number of cells from it eastward
/// that all have this state, from 1 to `limit`. It finds the run within a block at once; if the run
/// goes on in the next block, or beside an electron, the number may be less than its length.
pub fn run_at(plan: &Plan, y: u64, x: u64, limit: u64) -> (State, u64)
    requires admissible { IsAdmissible plan.now }
    requires some { 1 ≤ limit }
    ensures { IsRowRun (λ x. drawn_plane shipped_drawing plan.now (pos x) (pos y)) x limit result }
{
    run_in(plan, slot_drawn_at(plan, x / 32, y / 16), y, x, limit)
}
