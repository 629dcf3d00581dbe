// The rows of stretches of blocks, where no electron stands. The runs of such a row are those of what
// stands in the blocks. Where the same stands again and again, in each block or in a motif of some
// blocks, they are found once, and copies of their cells are written.
ghost use Rattle.std.specs.Prelude.{◌≡◌, ◌≤◌, ◌<◌, ◌+◌, ◌*◌, ◌^◌, ◌/◌, ℕ, List, ◌∷◌, ◌++◌, map, drop, take, length, All, IfOk, OnErr};
ghost use Rattle.ww_rule.specs.declared.pattern.State.{State};
ghost use Rattle.lane_core.specs.Plans.{IsAdmissible, size_of};
ghost use Rattle.grid_assembly.specs.PlanDrawing.{start_row};
ghost use Rattle.pattern_writing.specs.Writer.{tag_of};
ghost use Rattle.rle_write.specs.Blocks.{AreBlocks, IsFigure, IsStretch, tags_of_blocks};
ghost use Rattle.rle_write.specs.Dark.{IsDark};
ghost use Rattle.rle_write.specs.Left.{rows_left, kept_left, text_left};
ghost use Rattle.rle_write.specs.Runs.{IsCellRun, IsCellTag, repeated, spelled};
ghost use Rattle.rle_write.specs.Taken.{BreaksInTags, TakesTags};
ghost use Rattle.ww_base.specs.Pages.{held, column_of};
ghost use Rattle.ww_base.specs.Progress.{Wrote, Broke};

use crate::block_rows::BlockRows;
use crate::blocks::Stretch;
use crate::copies::add_row;
use crate::laps::add_many;
use crate::rows::{Kept, Run, add_run};
use lane_core::Plan;
use ww_base::{Failed, Page, Sink};

// So many blocks in which the same stands are written as one: fewer are written block by block.
const FEW: u32 = 3;

// How many blocks farther than the same stands another motif is to reach, if it is taken.
const MUCH: u32 = 4;

// Takes `count` copies of the cells that these runs spell.
fn add_stretch<O: Sink>(
    sink: &mut O,
    page: &mut Page,
    kept: Kept,
    runs: &[Run],
    count: usize,
) -> Result<Kept, Failed>
    requires cell { IsCellTag kept.run.tag }
    requires runs { All IsCellRun runs.now }
    requires some { 1 ≤ count }
    requires short { kept.run.count + length (repeated count (spelled runs.now)) < 2 ^ 64 }
    ensures cell { IfOk result (λ k. IsCellTag k.run.tag) }
    ensures fewer { IfOk result (λ k. k.due ≤ kept.due) }
    ensures short { IfOk result (λ k. k.run.count ≤ kept.run.count + length (repeated count (spelled runs.now))) }
    ensures ok { IfOk result (TakesTags (O.written sink.old) (O.written sink.new) (O.faults sink.old)
        (O.faults sink.new) page.old page.new kept (repeated count (spelled runs.now))) }
    ensures err { OnErr result (BreaksInTags (O.written sink.old) (O.written sink.new) (O.faults sink.old)
        (O.faults sink.new) page.old kept (repeated count (spelled runs.now))) }
{
    if runs.len() == 1 {
        let run = Run {
            count: runs[0].count * count,
            tag: runs[0].tag,
        };
        return add_run(sink, page, kept, run);
    }
    add_many(sink, page, kept, runs, count)
}

// How many blocks are written as one from where a stretch begins, and how often they stand there:
// one, if its motif does not reach much farther than the same stands.
fn figure_of(stretch: Stretch) -> (usize, usize)
    requires { 1 ≤ stretch.motif }
    ensures { (plan : Plan) (lane size k : ℕ) → IsStretch plan lane size k stretch →
        IsFigure plan lane size k result.0 result.1 }
{
    if stretch.reach < stretch.count.saturating_add(MUCH) {
        if stretch.count < FEW {
            return (1, 1);
        }
        return (1, stretch.count as usize);
    }
    let often = stretch.reach / stretch.motif as u32;
    (stretch.motif as usize, often as usize)
}

// Puts the runs of row `y` of a lane's blocks into the room for them, of so many blocks from this
// column on, and returns how many runs there are.
fn runs_of_blocks(
    rows: &mut BlockRows,
    blocks: &[Stretch],
    column: usize,
    count: usize,
    y: u32,
) -> usize
    requires few { count ≤ 4 }
    requires in_block { y < 16 }
    requires inside { column + count ≤ length blocks.now }
    ensures few { result ≤ 32 * count }
    ensures cells { All IsCellRun (take result rows.new.runs) }
    ensures runs { spelled (take result rows.new.runs) ≡ tags_of_blocks blocks.now column count y }
{
    let mut found = 0;
    for i in 0..count {
        found = rows.put_row(blocks[column + i].slot, y, found);
    }
    found
}

// Takes the cells of row `y` of so many blocks from this column on, `often` times.
fn add_blocks<O: Sink>(
    sink: &mut O,
    page: &mut Page,
    kept: Kept,
    blocks: &[Stretch],
    rows: &mut BlockRows,
    column: usize,
    count: usize,
    often: usize,
    y: u32,
) -> Result<Kept, Failed>
    requires cell { IsCellTag kept.run.tag }
    requires some { 1 ≤ often }
    requires few { count ≤ 4 }
    requires in_block { y < 16 }
    requires inside { column + count ≤ length blocks.now }
    requires short { kept.run.count + length (repeated often (tags_of_blocks blocks.now column count y)) < 2 ^ 64 }
    ensures cell { IfOk result (λ k. IsCellTag k.run.tag) }
    ensures fewer { IfOk result (λ k. k.due ≤ kept.due) }
    ensures short { IfOk result (λ k. k.run.count ≤
        kept.run.count + length (repeated often (tags_of_blocks blocks.now column count y))) }
    ensures ok { IfOk result (TakesTags (O.written sink.old) (O.written sink.new) (O.faults sink.old)
        (O.faults sink.new) page.old page.new kept (repeated often (tags_of_blocks blocks.now column count y))) }
    ensures err { OnErr result (BreaksInTags (O.written sink.old) (O.written sink.new) (O.faults sink.old)
        (O.faults sink.new) page.old kept (repeated often (tags_of_blocks blocks.now column count y))) }
{
    let found = runs_of_blocks(rows, blocks, column, count, y);
    add_stretch(sink, page, kept, &rows.runs[..found], often)
}

// Takes the cells of row `y` of so many blocks from this column on, `often` times. The row of one
// block that is taken once is kept.
fn add_figure<O: Sink>(
    sink: &mut O,
    page: &mut Page,
    kept: Kept,
    blocks: &[Stretch],
    rows: &mut BlockRows,
    column: usize,
    count: usize,
    often: usize,
    y: u32,
) -> Result<Kept, Failed>
    requires cell { IsCellTag kept.run.tag }
    requires some { 1 ≤ often }
    requires few { count ≤ 4 }
    requires in_block { y < 16 }
    requires inside { column + count ≤ length blocks.now }
    requires short { kept.run.count + length (repeated often (tags_of_blocks blocks.now column count y)) < 2 ^ 64 }
    ensures cell { IfOk result (λ k. IsCellTag k.run.tag) }
    ensures fewer { IfOk result (λ k. k.due ≤ kept.due) }
    ensures short { IfOk result (λ k. k.run.count ≤
        kept.run.count + length (repeated often (tags_of_blocks blocks.now column count y))) }
    ensures ok { IfOk result (TakesTags (O.written sink.old) (O.written sink.new) (O.faults sink.old)
        (O.faults sink.new) page.old page.new kept (repeated often (tags_of_blocks blocks.now column count y))) }
    ensures err { OnErr result (BreaksInTags (O.written sink.old) (O.written sink.new) (O.faults sink.old)
        (O.faults sink.new) page.old kept (repeated often (tags_of_blocks blocks.now column count y))) }
{
    if count == 1 && often == 1 {
        let row = rows.row_of(blocks[column].slot, y);
        return add_row(sink, page, kept, row.runs(), row.step(), row.bytes());
    }
    add_blocks(sink, page, kept, blocks, rows, column, count, often, y)
}

/// Writes row `y` as far as these blocks reach, stretch by stretch, but for what is returned: what
/// is kept then.
pub fn write_stretches<O: Sink>(
    sink: &mut O,
    page: &mut Page,
    ends: usize,
    plan: &Plan,
    blocks: &[Stretch],
    rows: &mut BlockRows,
    y: u64,
) -> Result<Kept, Failed>
    requires admissible { IsAdmissible plan.now }
    requires kept { AreBlocks plan.now (y / 16) blocks.now }
    requires inside { 32 * length blocks.now ≤ (size_of plan.now).0 }
    requires dark { 1 ≤ length blocks.now → IsDark plan.now y }
    ensures cell { IfOk result (λ k. IsCellTag k.run.tag) }
    ensures fewer { IfOk result (λ k. k.due ≤ ends) }
    ensures short { IfOk result (λ k. k.run.count ≤ 32 * length blocks.now) }
    ensures ok { IfOk result (λ k. (rows : List (List State)) →
        Wrote (O.written sink.old) (O.written sink.new) (O.faults sink.old) (O.faults sink.new)
        (text_left (held page.old) (column_of page.old)
        (rows_left ends (start_row plan.now y ∷ rows)))
        (kept_left (held page.new) (column_of page.new) k
        (map tag_of (drop (32 * length blocks.now) (start_row plan.now y))) rows)) }
    ensures err { OnErr result ((rows : List (List State)) →
        Broke (O.written sink.old) (O.written sink.new) (O.faults sink.old) (O.faults sink.new)
        (text_left (held page.old) (column_of page.old)
        (rows_left ends (start_row plan.now y ∷ rows)))) }
{
    let mut kept = Kept::begin(ends);
    let mut column = 0;
    'stretches: while column < blocks.len() {
        let (figure, often) = figure_of(blocks[column]);
        let row = (y % 16) as u32;
        kept = add_figure(sink, page, kept, blocks, rows, column, figure, often, row)?;
        column += figure * often;
    }
    Ok(kept)
}
