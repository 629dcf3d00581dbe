// What stands in a block of a plan without a tape. The caller knows whether the block's lane has an
// output, so the outputs are not gone through for each block.
ghost use Rattle.std.specs.Prelude.{◌≡◌, ◌==◌, cond, []};
ghost use Rattle.std.specs.List.{list_any};
ghost use Rattle.tile_core.specs.declared.kind.Kind.TheVariants as kind;
ghost use Rattle.tiling.specs.Tiling.Piece.{Output};
ghost use Rattle.tiling.specs.Tiling.Slot.{Whole};
ghost use Rattle.lane_core.specs.Plans.{IsAdmissible};
ghost use Rattle.plan_layout.specs.Layout.{turn_slot};
ghost use Rattle.plan_layout.specs.Slots.{slot_of};
ghost use Rattle.plan_layout.specs.Tape.{drawn_tiling};

use lane_core::Plan;
use plan_layout::{Piece, Slot, slot_drawn_at};
use tile_core::Kind;

// What stands next to the body's end, `off` lanes above the body's lowest lane.
fn end_slot(loops: u32, off: u32, is_out: bool) -> Slot
    ensures { slot_of result
        ≡ cond is_out (Whole Output) (turn_slot loops 0 off kind.East kind.EastSouth kind.South) }
{
    if is_out {
        Slot::Whole(Piece::Output)
    } else if off >= loops {
        Slot::Nothing
    } else if off > 0 {
        Slot::Whole(Piece::Tile(Kind::East))
    } else {
        Slot::Whole(Piece::Tile(Kind::EastSouth))
    }
}

/// Returns what stands in the block of this tile column and this lane.
pub fn slot_in(plan: &Plan, column: u64, lane: u64, is_out: bool) -> Slot
    requires admissible { IsAdmissible plan.now }
    requires no_tape { plan.now.tape ≡ [] }
    requires out { is_out ≡ list_any (λ out. out == lane) plan.now.outs }
    ensures { slot_of result ≡ drawn_tiling plan.now column lane }
{
    let end = plan.latches as u64 + plan.columns.len() as u64;
    if column == end && lane < plan.lanes as u64 {
        return end_slot(plan.latches, plan.lanes - 1 - lane as u32, is_out);
    }
    slot_drawn_at(plan, column, lane)
}
