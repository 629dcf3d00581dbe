// The rows of a plan's drawing, run by run.
ghost use Rattle.std.specs.Prelude.{◌≡◌, ◌≢◌, ◌≤◌, ◌<◌, ◌+◌, ◌*◌, ◌^◌, ◌/◌, ◌%◌, ℕ, pos, List, ◌∷◌, ◌++◌, length, IfOk, OnErr, OnOk};
ghost use Rattle.ww_rule.specs.declared.pattern.State.{State};
ghost use Rattle.tile_library.specs.Drawings.{shipped_drawing};
ghost use Rattle.tile_library.specs.RowRuns.{IsRowRun};
ghost use Rattle.lane_core.specs.Plans.{IsAdmissible};
ghost use Rattle.lane_core.specs.Plans.{size_of};
ghost use Rattle.plan_layout.specs.Tape.{drawn_plane, drawn_tiling};
ghost use Rattle.plan_layout.specs.Slots.{slot_of};
ghost use Rattle.grid_assembly.specs.PlanDrawing.{start_row, start_grid};
ghost use Rattle.grid_assembly.specs.West.{tape_end};
ghost use Rattle.pattern_writing.specs.Writer.{item_texts, wrapped};
ghost use Rattle.rle_write.specs.Blocks.{AreBlocks, AreKnownBelow, IsWestUpTo};
ghost use Rattle.rle_write.specs.Dark.{IsDark};
ghost use Rattle.rle_write.specs.Left.{rows_left, text_left};
ghost use Rattle.ww_base.specs.Pages.{held, column_of};
ghost use Rattle.ww_base.specs.Progress.{Wrote, Broke};

use crate::block_rows::BlockRows;
use crate::blocks::{Stretch, keep_blocks, kept_block};
use crate::dark::is_dark;
use crate::items::write_item;
use crate::rows::{end_row, write_same};
use crate::stretches::write_stretches;
use grid_assembly::{West, run_in, run_on_tape, tape_end, west_of};
use lane_core::Plan;
use plan_layout::Slot;
use ww_base::{Failed, Page, Sink};
use ww_rule::State;

// What stands in the block of the cell at column `x` and row `y`: it is looked up where the block
// begins, and is else what stood there for the cell before.
fn slot_from(plan: &Plan, blocks: &[Stretch], y: u64, x: u64, before: Slot) -> Slot
    requires admissible { IsAdmissible plan.now }
    requires kept { AreBlocks plan.now (y / 16) blocks.now }
    requires before { x % 32 ≢ 0 → slot_of before ≡ drawn_tiling plan.now (x / 32) (y / 16) }
    ensures { slot_of result ≡ drawn_tiling plan.now (x / 32) (y / 16) }
{
    if x % 32 == 0 {
        kept_block(plan, blocks, x / 32, y / 16)
    } else {
        before
    }
}

// The next run of a row, and what stands in the block to which the run goes. West of the plan no
// block is looked up.
fn next_run(
    plan: &Plan,
    blocks: &[Stretch],
    end: u64,
    west: West,
    before: Slot,
    y: u64,
    x: u64,
    limit: u64,
) -> (Slot, (State, u64))
    requires admissible { IsAdmissible plan.now }
    requires kept { AreBlocks plan.now (y / 16) blocks.now }
    requires west { IsWestUpTo plan.now y end west }
    requires before { tape_end plan.now ≤ x → x % 32 ≢ 0 →
        slot_of before ≡ drawn_tiling plan.now (x / 32) (y / 16) }
    requires low { y < 2 ^ 60 }
    requires some { 1 ≤ limit }
    ensures run { IsRowRun (λ x. drawn_plane shipped_drawing plan.now (pos x)
        (pos y)) x limit result.1 }
    ensures slot { tape_end plan.now ≤ x + result.1.1 → (x + result.1.1) % 32 ≢ 0 →
        slot_of result.0 ≡ drawn_tiling plan.now ((x + result.1.1) / 32) (y / 16) }
{
    if x < end {
        (before, run_on_tape(plan, west, y, x, limit))
    } else {
        let slot = slot_from(plan, blocks, y, x, before);
        (slot, run_in(plan, slot, y, x, limit))
    }
}

// The blocks whose row `y` is written stretch by stretch: those that are kept, if no electron stands
// in the row, or else none.
fn dark_blocks<'a>(plan: &Plan, blocks: &'a [Stretch], y: u64) -> &'a [Stretch]
    requires admissible { IsAdmissible plan.now }
    requires kept { AreBlocks plan.now (y / 16) blocks.now }
    requires low { y < 2 ^ 60 }
    ensures kept { AreBlocks plan.now (y / 16) result.now }
    ensures fewer { length result.now ≤ length blocks.now }
    ensures dark { 1 ≤ length result.now → IsDark plan.now y }
{
    if is_dark(plan, y) {
        blocks
    } else {
        &blocks[..0]
    }
}

// Writes row `y` up to its last cell that is not empty, and returns how many row ends are due then,
// its own among them.
fn write_plan_row<O: Sink>(
    sink: &mut O,
    page: &mut Page,
    ends: usize,
    plan: &Plan,
    blocks: &[Stretch],
    rows: &mut BlockRows,
    width: u64,
    y: u64,
) -> Result<usize, Failed>
    requires admissible { IsAdmissible plan.now }
    requires kept { AreBlocks plan.now (y / 16) blocks.now }
    requires wide { width ≡ (size_of plan.now).0 }
    requires inside { 32 * length blocks.now ≤ width }
    requires low { y < 2 ^ 60 }
    requires few { ends + 1 < 2 ^ 64 }
    ensures one_more { IfOk result (λ after. after ≤ ends + 1) }
    ensures ok { IfOk result (λ after. (rows : List (List State)) →
        Wrote (O.written sink.old) (O.written sink.new) (O.faults sink.old) (O.faults sink.new)
        (text_left (held page.old) (column_of page.old)
        (rows_left ends (start_row plan.now y ∷ rows)))
        (text_left (held page.new) (column_of page.new) (rows_left after rows))) }
    ensures err { OnErr result ((rows : List (List State)) →
        Broke (O.written sink.old) (O.written sink.new) (O.faults sink.old) (O.faults sink.new)
        (text_left (held page.old) (column_of page.old)
        (rows_left ends (start_row plan.now y ∷ rows)))) }
{
    let (end, west) = (tape_end(plan), west_of(plan, y));
    let stretches = dark_blocks(plan, blocks, y);
    let mut kept = write_stretches(sink, page, ends, plan, stretches, rows, y)?;
    let mut x = 32 * stretches.len() as u64;
    let mut slot = Slot::Nothing;
    'runs: while x < width {
        let (block, (state, count)) = next_run(plan, blocks, end, west, slot, y, x, width - x);
        slot = block;
        kept = write_same(sink, page, kept, state, count as usize)?;
        x += count;
    }
    end_row(sink, page, kept)
}

/// Writes the items of a plan's rows, the `!` after them and a line end on the page. The blocks of
/// a lane are looked up once for all its rows, as many of them as `blocks` has room for.
pub fn write_plan_rows<O: Sink>(
    sink: &mut O,
    page: &mut Page,
    plan: &Plan,
    blocks: &mut [Stretch],
    width: u64,
    height: u64,
) -> Result<(), Failed>
    requires admissible { IsAdmissible plan.now }
    requires wide { width ≡ (size_of plan.now).0 }
    requires high { height ≡ (size_of plan.now).1 }
    requires inside { 32 * length blocks.old ≤ width }
    requires known { AreKnownBelow plan.now 0 blocks.old }
    requires begun { column_of page.old ≡ 0 }
    ensures ok { OnOk result ((rest : List ℕ) →
        Wrote (O.written sink.old) (O.written sink.new) (O.faults sink.old) (O.faults sink.new)
        (held page.old ++ (wrapped 0 (item_texts (start_grid plan.now).rows) ++ (10 ∷ rest)))
        (held page.new ++ rest)) }
    ensures err { OnErr result ((rest : List ℕ) →
        Broke (O.written sink.old) (O.written sink.new) (O.faults sink.old) (O.faults sink.new)
        (held page.old ++ (wrapped 0 (item_texts (start_grid plan.now).rows) ++ (10 ∷ rest)))) }
{
    let mut rows = BlockRows::new();
    let mut ends = 0;
    let mut y = 0;
    'rows: while y < height {
        keep_blocks(plan, y, blocks);
        ends = write_plan_row(sink, page, ends, plan, blocks, &mut rows, width, y)?;
        y += 1;
    }
    write_item(sink, page, 1, b'!')?;
    page.put(sink, b"\n")
}
