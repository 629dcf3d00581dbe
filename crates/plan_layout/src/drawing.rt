// The drawing of a plan with its tape: which tile stands in which block, and which edges are lit at
// generation 0.
ghost use Rattle.std.specs.Prelude.{◌≡◌, ◌+◌, ◌<◌, ◌^◌, ◌==◌};
ghost use Rattle.std.specs.List.{list_any};
ghost use Rattle.lane_core.specs.Plans.{IsAdmissible};
ghost use Rattle.lane_core.specs.Tape.{tape_shift, tape_tiles};
ghost use Rattle.plan_layout.specs.Edges.{as_edge, column_in, lane_in};
ghost use Rattle.plan_layout.specs.Slots.{slot_of};
ghost use Rattle.plan_layout.specs.Tape.{drawn_edges, drawn_tiling, is_on_tape, is_taped};

use crate::starts::is_start;
use crate::{Edge, Piece, Slot, slot_at};
use lane_core::{Plan, tape_bit, tape_shift, tape_tiles};
use tile_core::Kind;

/// Returns the tile column of the drawing in which the body begins.
pub fn body_column(plan: &Plan) -> u64
    requires { IsAdmissible plan.now }
    ensures exact { result ≡ tape_shift plan.now + plan.now.latches }
    ensures near { result < 2 ^ 55 }
{
    tape_shift(plan) + plan.latches as u64
}

// Whether an input enters on a lane.
fn is_input(ins: &[u32], lane: u64) -> bool
    ensures { result ≡ list_any (λ input. input == lane) ins.now }
{
    ins.iter().any(|input| *input as u64 == lane)
}

// Whether a block is one of the tape's.
fn is_on_tape(plan: &Plan, column: u64, lane: u64) -> bool
    requires { IsAdmissible plan.now }
    ensures { result ≡ is_on_tape plan.now (tape_shift plan.now) (tape_tiles plan.now) column lane }
{
    let body = body_column(plan);
    column < body && body <= column + tape_tiles(plan) && is_input(plan.ins.as_slice(), lane)
}

/// Returns what stands in the block of this tile column and lane of the drawing, both counted from
/// 0 from its north-western corner: a tile of the tape, or what the plan has there.
pub fn slot_drawn_at(plan: &Plan, column: u64, lane: u64) -> Slot
    requires { IsAdmissible plan.now }
    ensures { slot_of result ≡ drawn_tiling plan.now column lane }
{
    let shift = tape_shift(plan);
    if is_on_tape(plan, column, lane) {
        Slot::Whole(Piece::Tile(Kind::East))
    } else if column < shift {
        Slot::Nothing
    } else {
        slot_at(plan, column - shift, lane)
    }
}

// Whether the electron of a bit of the tape lies at the west side of a block.
fn is_taped(plan: &Plan, column: u64, lane: u64) -> bool
    requires { IsAdmissible plan.now }
    ensures { result ≡ is_taped plan.now column lane }
{
    if plan.tape.len() == 0 {
        return false;
    }
    let body = body_column(plan);
    column <= body && tape_bit(plan, body - column, lane)
}

/// Returns whether an edge of the drawing is lit at generation 0, by the tape or by a start of the
/// plan.
pub fn is_lit(plan: &Plan, edge: Edge) -> bool
    requires admissible { IsAdmissible plan.now }
    requires far { column_in (as_edge edge) < 2 ^ 58 }
    requires low { lane_in (as_edge edge) < 2 ^ 58 }
    ensures { result ≡ drawn_edges plan.now (as_edge edge) }
{
    let shift = tape_shift(plan);
    match edge {
        Edge::Beside(column, lane) => {
            is_taped(plan, column, lane)
                || shift <= column && is_start(plan, Edge::Beside(column - shift, lane))
        }
        Edge::Above(column, lane) => {
            shift <= column && is_start(plan, Edge::Above(column - shift, lane))
        }
    }
}
