// What stands in the blocks of a plan's body. From lane to lane it is known of each column how many
// of its instructions lie above, so that the instruction on a lane needs no search.
ghost use Rattle.std.specs.Prelude.{◌≡◌, ◌≤◌, ◌<◌, ◌+◌, None, IsTrue, false};
ghost use Rattle.std.specs.List.{AllWithin};
ghost use Rattle.lane_core.specs.Instrs.{lane_of, are_sorted_apart, instr_on};
ghost use Rattle.plan_layout.specs.Layout.{kind_of, body_slot};
ghost use Rattle.plan_layout.specs.Slots.{slot_of};
ghost use Rattle.rle_write.specs.Known.{IsKnownOn, IsKnownWithin, StandsKnown, near_slot};

use lane_core::{Column, Instr};
use plan_layout::{Piece, Slot};
use tile_core::Kind;

/// What is known of a column below a lane. What stands on the lane stands on each lane from it on
/// before `until`. If there is a next kind, a tile of it stands on lane `until` and the one below. So
/// many instructions of the column lie above the lane; nothing rests on this number.
#[derive(Clone, Copy)]
pub struct Below {
    pub above: u32,
    pub until: u32,
    pub next: Option<Kind>,
}

impl Below {
    /// Nothing is known, if it may be that so many instructions lie above the lane.
    pub fn nothing(above: u32) -> Below
        ensures until { result.until ≡ 0 }
        ensures next { result.next ≡ None }
    {
        Below {
            above,
            until: 0,
            next: None,
        }
    }
}

// The kind of tile that does an instruction.
fn kind_of(instr: Instr) -> Kind
    ensures { result ≡ kind_of instr }
{
    match instr {
        Instr::Swap(_) => Kind::Swap,
        Instr::Fork(_) => Kind::Fork,
        Instr::Xor(_) => Kind::Xor,
        Instr::Or(_) => Kind::Or,
        Instr::AndNot(_) => Kind::AndNot,
    }
}

// What stands on a lane of the body, by the instruction that works on the lane.
fn slot_by(lane: u32, instr: Option<Instr>) -> Slot
    ensures { slot_of result ≡ body_slot lane instr }
{
    match instr {
        None => Slot::Whole(Piece::Tile(Kind::East)),
        Some(instr) if lane == instr.lane() => Slot::Upper(Piece::Tile(kind_of(instr))),
        Some(instr) => Slot::Lower(Piece::Tile(kind_of(instr))),
    }
}

// Whether an instruction works only on lanes above this one.
fn is_above(instr: Instr, lane: u32) -> bool
    ensures above { IsTrue result → lane_of instr + 1 < lane }
    ensures others { result ≡ false → lane ≤ lane_of instr + 1 }
{
    instr.lane() as u64 + 1 < lane as u64
}

// How many instructions of a column lie above a lane, if so many lie above the lane before it.
fn count_above(instrs: &[Instr], lane: u32, before: u32) -> u32 {
    match instrs.get(before as usize) {
        Some(instr) if is_above(*instr, lane) => before.saturating_add(1),
        _ => before,
    }
}

// Whether the first instructions of a column, so many, lie above a lane. The last of them tells.
fn are_above(instrs: &[Instr], lane: u32, count: usize) -> bool
    requires { IsTrue (are_sorted_apart instrs.now) }
    ensures { IsTrue result → AllWithin (λ i. lane_of i + 1 < lane) instrs.now 0 count }
{
    count == 0 || (count <= instrs.len() && is_above(instrs[count - 1], lane))
}

// What stands on a lane of the body, if this is the first instruction that does not lie above it.
fn slot_near(lane: u32, instr: Instr) -> Slot
    ensures { slot_of result ≡ near_slot lane instr }
{
    if lane < instr.lane() {
        slot_by(lane, None)
    } else {
        slot_by(lane, Some(instr))
    }
}

// What stands on a lane of a column of the body, by a search for the instruction that works on it.
fn searched_block(column: &Column, lane: u32, above: u32) -> (Slot, Below)
    ensures { StandsKnown (λ l. body_slot l (instr_on column.now.instrs l)) lane result.0 result.1 }
{
    (slot_by(lane, column.instr_on(lane)), Below::nothing(above))
}

// What stands on a lane of a column, and what is known of the lanes below it, by the first of its
// instructions that does not lie above the lane, or by a search if this may be another.
fn block_after(column: &Column, lane: u32, above: u32) -> (Slot, Below)
    ensures { StandsKnown (λ l. body_slot l (instr_on column.now.instrs l)) lane result.0 result.1 }
{
    let instrs = column.instrs.as_slice();
    if !are_above(instrs, lane, above as usize) {
        return searched_block(column, lane, above);
    }
    match instrs.get(above as usize) {
        None => (
            slot_by(lane, None),
            Below {
                above,
                until: u32::MAX,
                next: None,
            },
        ),
        Some(instr) if is_above(*instr, lane) => searched_block(column, lane, above),
        Some(instr) => (
            slot_near(lane, *instr),
            Below {
                above,
                until: instr.lane(),
                next: Some(kind_of(*instr)),
            },
        ),
    }
}

/// Returns what stands on a lane of a column of the body, and what is known of the lanes below it.
/// If so many of the column's instructions lie above the lane before it, no instruction is searched.
pub fn body_block(column: &Column, lane: u32, before: u32) -> (Slot, Below)
    ensures { StandsKnown (λ l. body_slot l (instr_on column.now.instrs l)) lane result.0 result.1 }
{
    let above = count_above(column.instrs.as_slice(), lane, before);
    block_after(column, lane, above)
}

/// Returns what stands on a lane, if it is known of a lane above it on which `slot` stands.
pub fn known_slot(lane: u64, slot: Slot, below: Below) -> Option<Slot>
    ensures { IsKnownOn lane slot below result }
{
    let until = below.until as u64;
    if lane < until {
        return Some(slot);
    }
    match below.next {
        Some(kind) if lane == until => Some(Slot::Upper(Piece::Tile(kind))),
        Some(kind) if lane == until + 1 => Some(Slot::Lower(Piece::Tile(kind))),
        _ => None,
    }
}

/// Returns what is known of so many lanes at most.
pub fn known_within(below: Below, lanes: u32) -> Below
    ensures { IsKnownWithin lanes below result }
{
    if (below.until as u64) + 1 < lanes as u64 {
        return below;
    }
    Below {
        above: below.above,
        until: below.until.min(lanes),
        next: None,
    }
}
