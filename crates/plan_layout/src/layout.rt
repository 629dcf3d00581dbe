// Which tile of a plan stands in which block.
ghost use Rattle.std.specs.Prelude.{◌≡◌, ◌+◌, ◌<◌, ◌≤◌};
ghost use Rattle.lane_core.specs.Plans.{IsAdmissible};
ghost use Rattle.plan_layout.specs.Layout.{kind_of, body_slot, turn_slot, return_slot, upper_part, lower_part, tiling_of};
ghost use Rattle.plan_layout.specs.Slots.{slot_of};

use crate::{Piece, Slot};
use lane_core::{Instr, Plan};
use tile_core::Kind;

/// Returns what stands in the block of this tile column and lane of a plan without its tape, both
/// counted from 0 from the north-western corner.
pub fn slot_at(plan: &Plan, column: u64, lane: u64) -> Slot
    requires { IsAdmissible plan.now }
    ensures { slot_of result ≡ tiling_of plan.now column lane }
{
    if lane < plan.lanes as u64 {
        upper_slot(plan, column, lane)
    } else if lane < plan.lanes as u64 + plan.latches as u64 {
        lower_slot(plan, column, lane)
    } else {
        Slot::Nothing
    }
}

fn upper_slot(plan: &Plan, column: u64, lane: u64) -> Slot
    requires admissible { IsAdmissible plan.now }
    requires in_lanes { lane < plan.now.lanes }
    ensures { slot_of result ≡ upper_part plan.now column lane }
{
    let loops = plan.latches as u64;
    let end = loops + plan.columns.len() as u64;
    let off = plan.lanes as u64 - 1 - lane;
    if column < loops {
        turn_slot(
            loops,
            loops - 1 - column,
            off,
            Kind::East,
            Kind::NorthEast,
            Kind::North,
        )
    } else if column < end {
        body_slot(
            lane,
            plan.columns
                .get((column - loops) as usize)
                .instr_on(lane as u32),
        )
    } else if column == end && plan.outs.as_slice().contains(&(lane as u32)) {
        Slot::Whole(Piece::Output)
    } else {
        turn_slot(
            loops,
            column - end,
            off,
            Kind::East,
            Kind::EastSouth,
            Kind::South,
        )
    }
}

fn lower_slot(plan: &Plan, column: u64, lane: u64) -> Slot
    requires admissible { IsAdmissible plan.now }
    requires below { plan.now.lanes ≤ lane }
    requires in_lanes { lane < plan.now.lanes + plan.now.latches }
    ensures { slot_of result ≡ lower_part plan.now column lane }
{
    let loops = plan.latches as u64;
    let end = loops + plan.columns.len() as u64;
    let off = lane - plan.lanes as u64;
    if column < loops {
        turn_slot(
            loops,
            loops - 1 - column,
            off,
            Kind::West,
            Kind::WestNorth,
            Kind::North,
        )
    } else if column < end {
        return_slot(loops, end - 1 - column, off)
    } else {
        turn_slot(
            loops,
            column - end,
            off,
            Kind::West,
            Kind::SouthWest,
            Kind::South,
        )
    }
}

fn kind_of(instr: Instr) -> Kind
    ensures { result ≡ kind_of instr }
{
    match instr {
        Instr::Swap(_) => Kind::Swap,
        Instr::Fork(_) => Kind::Fork,
        Instr::Xor(_) => Kind::Xor,
        Instr::Or(_) => Kind::Or,
        Instr::AndNot(_) => Kind::AndNot,
    }
}

fn body_slot(lane: u64, instr: Option<Instr>) -> Slot
    ensures { slot_of result ≡ body_slot lane instr }
{
    match instr {
        None => Slot::Whole(Piece::Tile(Kind::East)),
        Some(instr) if lane == instr.lane() as u64 => Slot::Upper(Piece::Tile(kind_of(instr))),
        Some(instr) => Slot::Lower(Piece::Tile(kind_of(instr))),
    }
}

fn turn_slot(loops: u64, away: u64, off: u64, along: Kind, corner: Kind, across: Kind) -> Slot
    ensures { slot_of result ≡ turn_slot loops away off along corner across }
{
    if away >= loops || off >= loops {
        return Slot::Nothing;
    }
    let kind = if away < off {
        along
    } else if away == off {
        corner
    } else {
        across
    };
    Slot::Whole(Piece::Tile(kind))
}

fn return_slot(loops: u64, back: u64, off: u64) -> Slot
    requires { off < loops }
    ensures { slot_of result ≡ return_slot loops back off }
{
    let swaps = back < loops;
    if swaps && off % 2 == back % 2 && off + 1 < loops {
        Slot::Upper(Piece::Tile(Kind::WestSwap))
    } else if swaps && off % 2 != back % 2 && off > 0 {
        Slot::Lower(Piece::Tile(Kind::WestSwap))
    } else {
        Slot::Whole(Piece::Tile(Kind::West))
    }
}
