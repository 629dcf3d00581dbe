// The rows of cells of what may stand in a block. The runs of such a row, and a step over all but the
// first two of them, are found once and kept, since the same stands in many blocks of a lane.
ghost use Rattle.std.specs.Prelude.{◌≡◌, ◌≤◌, ◌<◌, ◌+◌, ◌^◌, [], ◌++◌, map, take, length, All, IsTrue};
ghost use Rattle.std.proofs.Props.{props};
ghost use Rattle.plan_layout.specs.Slots.{slot_of};
ghost use Rattle.pattern_writing.specs.Writer.{tag_of};
ghost use Rattle.rle_write.specs.Dark.{bare_row};
ghost use Rattle.rle_write.specs.Runs.{IsCellRun, spelled};
ghost use Rattle.rle_write.specs.StepBytes.{bytes_in};
ghost use Rattle.rle_write.specs.Steps.{IsRowStep};

use crate::bare::runs_of_row;
use crate::blocks::is_same;
use crate::rows::{EMPTY, Run};
use crate::step_bytes::StepBytes;
use crate::steps::{Step, find_step};
use plan_layout::{Piece, Slot};
use tile_core::Kind;

// The cells of a block's row, which has as many runs at most.
const CELLS: usize = 32;

// The most runs in a row of blocks that are written as one: four blocks of 32 cells.
const RUNS: usize = 128;

// How many rows are kept: one for each piece, and one more for the lower lane of it.
const ROWS: usize = 32;

/// A row of cells of what stands in a block: its runs, and the step over those after the first two.
#[derive(Clone, Copy)]
pub struct BlockRow {
    slot: Slot,
    y: u32,
    runs: [Run; CELLS],
    found: usize,
    step: Option<Step>,
    bytes: StepBytes,
    ghost in_runs: { found ≤ 32 },
    ghost cells: { All IsCellRun (take found runs) },
    ghost row: { spelled (take found runs) ≡ map tag_of (bare_row (slot_of slot) y) },
    ghost over: { IsRowStep step (take found runs) (bytes_in bytes) } by { Prim.hlevel props },
}

// Finds the step over all but the first two runs, and puts its bytes into `bytes`.
fn step_after_two(bytes: &mut StepBytes, runs: &[Run]) -> Option<Step>
    requires runs { All IsCellRun runs.now }
    requires short { length (spelled runs.now) < 2 ^ 64 }
    requires empty { bytes_in bytes.old ≡ [] }
    ensures { IsRowStep result runs.now (bytes_in bytes.new) }
{
    if runs.len() < 2 {
        return None;
    }
    find_step(bytes, runs[1], &runs[2..])
}

impl BlockRow {
    ghost use Rattle.rle_write.specs.BlockRows.{runs_in};

    // Finds row `y` of what stands in a block.
    fn of(slot: Slot, y: u32) -> BlockRow
        requires { y < 16 }
        ensures { spelled (runs_in result) ≡ map tag_of (bare_row (slot_of slot) y) }
    {
        let mut runs = [Run {
            count: 0,
            tag: EMPTY,
        }; CELLS];
        let found = runs_of_row(slot, y, &mut runs);
        let mut bytes = StepBytes::new();
        let step = step_after_two(&mut bytes, &runs[..found]);
        BlockRow {
            slot,
            y,
            runs,
            found,
            step,
            bytes,
        }
    }

    // Whether this is row `y` of what stands in such a block.
    fn is_of(&self, slot: Slot, y: u32) -> bool
        ensures { IsTrue result → spelled (runs_in self.now) ≡ map tag_of (bare_row (slot_of slot) y) }
    {
        self.y == y && is_same(self.slot, slot)
    }

    /// The runs of the row.
    pub fn runs(&self) -> &[Run]
        ensures runs { result.now ≡ runs_in self.now }
        ensures cells { All IsCellRun (runs_in self.now) }
    {
        &self.runs[..self.found]
    }

    /// The step over the runs after the first two, if there is one.
    pub fn step(&self) -> Option<Step>
        ensures { result ≡ self.now.step }
    {
        self.step
    }

    /// The bytes of the step.
    pub fn bytes(&self) -> &[u8]
        ensures { IsRowStep self.now.step (runs_in self.now) result.now }
    {
        self.bytes.bytes()
    }
}

// The place of a kind of tile among the rows that are kept.
fn place_of_kind(kind: Kind) -> usize
    ensures { result < 14 }
{
    match kind {
        Kind::Swap => 0,
        Kind::Xor => 1,
        Kind::Or => 2,
        Kind::AndNot => 3,
        Kind::Fork => 4,
        Kind::East => 5,
        Kind::South => 6,
        Kind::North => 7,
        Kind::EastSouth => 8,
        Kind::SouthWest => 9,
        Kind::WestNorth => 10,
        Kind::NorthEast => 11,
        Kind::West => 12,
        Kind::WestSwap => 13,
    }
}

// The place of a piece there.
fn place_of_piece(piece: Piece) -> usize
    ensures { result < 15 }
{
    match piece {
        Piece::Tile(kind) => place_of_kind(kind),
        Piece::Output => 14,
    }
}

// The place of what stands in a block there. The upper lane of a piece is where a whole one is.
fn place_of(slot: Slot) -> usize
    ensures { result < 32 }
{
    match slot {
        Slot::Nothing => 15,
        Slot::Whole(piece) | Slot::Upper(piece) => place_of_piece(piece),
        Slot::Lower(piece) => 16 + place_of_piece(piece),
    }
}

// Puts more runs after the first `before` of them.
fn put_runs(runs: &mut [Run], before: usize, more: &[Run])
    requires { before + length more.now ≤ length runs.old }
    ensures size { length runs.new ≡ length runs.old }
    ensures runs { take (before + length more.now) runs.new ≡ take before runs.old ++ more.now }
{
    runs[before..before + more.len()].copy_from_slice(more);
}

/// The rows that are kept, and room for the runs in a row of up to four blocks.
#[derive(Drop)]
pub struct BlockRows {
    rows: [BlockRow; ROWS],
    pub runs: [Run; RUNS],
}

impl BlockRows {
    ghost use Rattle.rle_write.specs.BlockRows.{runs_in, IsRowAt};

    /// Rows of blocks in which nothing stands.
    pub fn new() -> BlockRows {
        BlockRows {
            rows: [BlockRow::of(Slot::Nothing, 0); ROWS],
            runs: [Run {
                count: 0,
                tag: EMPTY,
            }; RUNS],
        }
    }

    // Finds row `y` of what stands in a block, and keeps it at a place.
    fn find(&mut self, place: usize, slot: Slot, y: u32)
        requires place { place < 32 }
        requires in_block { y < 16 }
        ensures row { IsRowAt self.new.rows place slot y }
        ensures runs { self.new.runs ≡ self.old.runs }
    {
        self.rows[place] = BlockRow::of(slot, y);
    }

    // Finds row `y` of what stands in a block if it is not kept, and returns its place. The search is
    // a function of its own, since room for a row would be cleared at each call.
    fn keep(&mut self, slot: Slot, y: u32) -> usize
        requires { y < 16 }
        ensures place { result < 32 }
        ensures row { IsRowAt self.new.rows result slot y }
        ensures runs { self.new.runs ≡ self.old.runs }
    {
        let place = place_of(slot);
        if !self.rows[place].is_of(slot, y) {
            self.find(place, slot, y);
        }
        place
    }

    /// Returns row `y` of what stands in a block, which is found if it is not kept.
    pub fn row_of(&mut self, slot: Slot, y: u32) -> &BlockRow
        requires { y < 16 }
        ensures { spelled (runs_in result.now) ≡ map tag_of (bare_row (slot_of slot) y) }
    {
        let place = self.keep(slot, y);
        &self.rows[place]
    }

    /// Puts the runs of row `y` of what stands in a block after the first `before` runs, and returns
    /// how many there are then.
    pub fn put_row(&mut self, slot: Slot, y: u32, before: usize) -> usize
        requires in_block { y < 16 }
        requires room { before + 32 ≤ 128 }
        requires cells { All IsCellRun (take before self.old.runs) }
        ensures few { result ≤ before + 32 }
        ensures cells { All IsCellRun (take result self.new.runs) }
        ensures runs { spelled (take result self.new.runs) ≡
            spelled (take before self.old.runs) ++ map tag_of (bare_row (slot_of slot) y) }
    {
        let place = self.keep(slot, y);
        let row = self.rows[place];
        let more = row.runs();
        put_runs(&mut self.runs, before, more);
        before + more.len()
    }
}
