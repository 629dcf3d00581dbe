// The first blocks of a lane, looked up once for the sixteen rows of cells that cross them.
ghost use Rattle.std.specs.Prelude.{◌≡◌, ◌≢◌, ◌≤◌, ◌<◌, ◌+◌, ◌/◌, ◌%◌, ℕ, IsTrue, length};
ghost use Rattle.lane_core.specs.Plans.{IsAdmissible};
ghost use Rattle.plan_layout.specs.Layout.{tiling_of};
ghost use Rattle.plan_layout.specs.Tape.{drawn_tiling};
ghost use Rattle.plan_layout.specs.Slots.{slot_of};
ghost use Rattle.rle_write.specs.Blocks.{AreBlocks, AreBlocksFrom, AreKnownBelow, IsNextMotif, IsStretch};
ghost use Rattle.rle_write.specs.Known.{IsKnownFrom, StandsKnown};

use crate::body::{Below, body_block, known_slot, known_within};
use lane_core::Plan;
use plan_layout::{Piece, Slot, slot_at, slot_drawn_at};

/// What stands in a block, and in how many blocks from it eastward, itself among them, the same
/// stands. The motif is so many blocks from it eastward as stand again and again, as far as the
/// reach: so many blocks, those of the motif among them.
#[derive(Clone, Copy)]
pub struct Stretch {
    pub slot: Slot,
    pub motif: u8,
    pub count: u32,
    pub reach: u32,
    pub below: Below,
}

// The most blocks of a motif.
const MOTIF: u8 = 4;

// Whether two pieces are the same.
fn is_same_piece(a: Piece, b: Piece) -> bool
    ensures { IsTrue result → a ≡ b }
{
    match (a, b) {
        (Piece::Tile(a), Piece::Tile(b)) => a == b,
        (Piece::Output, Piece::Output) => true,
        (Piece::Tile(_), Piece::Output) | (Piece::Output, Piece::Tile(_)) => false,
    }
}

/// Returns whether the same stands in two blocks.
pub fn is_same(a: Slot, b: Slot) -> bool
    ensures { IsTrue result → a ≡ b }
{
    match (a, b) {
        (Slot::Nothing, Slot::Nothing) => true,
        (Slot::Whole(a), Slot::Whole(b)) => is_same_piece(a, b),
        (Slot::Upper(a), Slot::Upper(b)) => is_same_piece(a, b),
        (Slot::Lower(a), Slot::Lower(b)) => is_same_piece(a, b),
        _ => false,
    }
}

// What stands in a block of a plan without its tape, and on the lanes below it. So many instructions
// of its column of the body lie above the lane before it, or else one is searched.
fn bare_block(plan: &Plan, column: u64, lane: u64, before: u32) -> (Slot, Below)
    requires admissible { IsAdmissible plan.now }
    ensures { StandsKnown (tiling_of plan.now column) lane result.0 result.1 }
{
    let loops = plan.latches as u64;
    let end = loops + plan.columns.len() as u64;
    if loops <= column && column < end && lane < plan.lanes as u64 {
        let instrs = plan.columns.get((column - loops) as usize);
        let (slot, below) = body_block(instrs, lane as u32, before);
        (slot, known_within(below, plan.lanes))
    } else {
        (slot_at(plan, column, lane), Below::nothing(before))
    }
}

// What stands in a block of the drawing, and on the lanes below it: what is known of it from the block
// above, or else, if the plan has no tape, what the plan has there.
fn block_at(plan: &Plan, column: u64, lane: u64, slot: Slot, below: Below) -> (Slot, Below)
    requires admissible { IsAdmissible plan.now }
    requires known { IsKnownFrom (drawn_tiling plan.now column) lane slot below }
    ensures { StandsKnown (drawn_tiling plan.now column) lane result.0 result.1 }
{
    if let Some(known) = known_slot(lane, slot, below) {
        return (known, below);
    }
    if plan.tape.len() == 0 {
        bare_block(plan, column, lane, below.above)
    } else {
        (
            slot_drawn_at(plan, column, lane),
            Below::nothing(below.above),
        )
    }
}

// In how many blocks from a block eastward the same stands as in it, if this stands east of it.
fn next_count(slot: Slot, east: Stretch) -> u32
    ensures some { 1 ≤ result }
    ensures longer { 2 ≤ result → (slot ≡ east.slot) × (result ≤ east.count + 1) }
{
    if is_same(slot, east.slot) {
        east.count.saturating_add(1)
    } else {
        1
    }
}

// How many blocks the motif has that begins with a block, and its reach. The motif east of the block
// goes on with it, or grows by it if it stands there once, or a motif of one block begins.
fn next_motif(east: Stretch, goes_on: bool) -> (u8, u32)
    ensures { IsNextMotif east goes_on result }
{
    if goes_on {
        return (east.motif, east.reach.saturating_add(1));
    }
    if east.motif < MOTIF && east.reach == east.motif as u32 {
        return (east.motif + 1, east.reach + 1);
    }
    (1, 1)
}

// The stretch of blocks that begins with the i-th block of a lane. Those that begin with the blocks
// east of it are known.
fn stretch_at(plan: &Plan, lane: u64, blocks: &[Stretch], i: usize) -> Stretch
    requires admissible { IsAdmissible plan.now }
    requires inside { i < length blocks.now }
    requires known { AreKnownBelow plan.now lane blocks.now }
    requires east { AreBlocksFrom plan.now lane (i + 1) blocks.now }
    ensures { IsStretch plan.now lane (length blocks.now) i result }
{
    let before = blocks[i];
    let (slot, below) = block_at(plan, i as u64, lane, before.slot, before.below);
    if i + 1 == blocks.len() {
        return Stretch {
            slot,
            motif: 1,
            count: 1,
            reach: 1,
            below,
        };
    }
    let east = blocks[i + 1];
    let goes_on = is_same(slot, blocks[i + east.motif as usize].slot);
    let (motif, reach) = next_motif(east, goes_on);
    Stretch {
        slot,
        motif,
        count: next_count(slot, east),
        reach,
        below,
    }
}

// Looks up what stands in the first blocks of a lane, from east to west.
fn look_up(plan: &Plan, lane: u64, blocks: &mut [Stretch])
    requires admissible { IsAdmissible plan.now }
    requires known { AreKnownBelow plan.now lane blocks.old }
    ensures size { length blocks.new ≡ length blocks.old }
    ensures blocks { AreBlocks plan.now lane blocks.new }
{
    for i in (0..blocks.len()).rev() {
        blocks[i] = stretch_at(plan, lane, blocks, i);
    }
}

/// Keeps in `blocks` the first blocks of the lane that row `y` crosses: it looks them up at the
/// lane's first row, and leaves them as they are at the others.
pub fn keep_blocks(plan: &Plan, y: u64, blocks: &mut [Stretch])
    requires admissible { IsAdmissible plan.now }
    requires before { y % 16 ≢ 0 → AreBlocks plan.now (y / 16) blocks.old }
    requires known { AreKnownBelow plan.now (y / 16) blocks.old }
    ensures size { length blocks.new ≡ length blocks.old }
    ensures blocks { AreBlocks plan.now (y / 16) blocks.new }
{
    if y % 16 == 0 {
        look_up(plan, y / 16, blocks);
    }
}

/// Returns what stands in the block of this tile column, which is looked up if it is not kept.
pub fn kept_block(plan: &Plan, blocks: &[Stretch], column: u64, lane: u64) -> Slot
    requires admissible { IsAdmissible plan.now }
    requires kept { AreBlocks plan.now lane blocks.now }
    ensures { slot_of result ≡ drawn_tiling plan.now column lane }
{
    if column < blocks.len() as u64 {
        blocks[column as usize].slot
    } else {
        slot_drawn_at(plan, column, lane)
    }
}
