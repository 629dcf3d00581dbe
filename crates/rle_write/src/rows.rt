// Rows, run by run. The length of a run of equal cells is kept until the run ends, and row ends are
// kept until a cell follows.
ghost use Rattle.std.specs.Prelude.{◌≡◌, ◌≤◌, ◌<◌, ◌+◌, ◌^◌, ℕ, List, [], ◌++◌, replicate, IfOk, OnErr, OnOk};
ghost use Rattle.ww_rule.specs.declared.pattern.State.{State};
ghost use Rattle.pattern_writing.specs.Writer.{TagRun, tag_of};
ghost use Rattle.rle_write.specs.Runs.{IsCellRun, IsCellTag};
ghost use Rattle.rle_write.specs.Taken.{BreaksInTags, TakesTags};
ghost use Rattle.rle_write.specs.Left.{rows_left, row_left, kept_left, end_items, items_left, text_left, IsRunBefore};
ghost use Rattle.ww_base.specs.Pages.{held, column_of};
ghost use Rattle.ww_base.specs.Progress.{Wrote, Broke};

use crate::items::write_item;
use pattern_writing::tag_of;
use ww_base::{Failed, Page, Sink};
use ww_rule::State;

/// The tag of an empty cell.
pub const EMPTY: usize = b'.' as usize;

/// A run of equal cells of a row that is not yet written. The tag is a byte in a word: with a byte
/// alone, each copy of a run is slow.
#[derive(Clone, Copy)]
pub struct Run {
    pub count: usize,
    pub tag: usize,
}

/// Returns the tag of a cell of this state.
pub fn cell_tag(state: State) -> usize
    ensures tag { result ≡ tag_of state }
    ensures cell { IsCellTag result }
{
    tag_of(state) as usize
}

/// Returns the byte of a tag.
pub fn byte_of(tag: usize) -> u8
    requires { tag < 256 }
    ensures { result ≡ tag }
{
    tag as u8
}

/// The part of the rows so far that is not yet written: row ends, and a run after them.
#[derive(Clone, Copy)]
pub struct Kept {
    pub due: usize,
    pub run: Run,
}

impl Kept {
    /// Returns what is kept at the beginning of a row: the row ends that are due, and no run.
    pub fn begin(due: usize) -> Kept
        ensures due { result.due ≡ due }
        ensures none { result.run.count ≡ 0 }
        ensures cell { IsCellTag result.run.tag }
    {
        Kept {
            due,
            run: Run {
                count: 0,
                tag: EMPTY,
            },
        }
    }
}

// Writes the row ends that are due.
fn write_ends<O: Sink>(sink: &mut O, page: &mut Page, ends: usize) -> Result<(), Failed>
    ensures ok { OnOk result ((items : List TagRun) →
        Wrote (O.written sink.old) (O.written sink.new) (O.faults sink.old) (O.faults sink.new)
        (items_left (held page.old) (column_of page.old) (end_items ends ++ items))
        (items_left (held page.new) (column_of page.new) items)) }
    ensures err { OnErr result ((items : List TagRun) →
        Broke (O.written sink.old) (O.written sink.new) (O.faults sink.old) (O.faults sink.new)
        (items_left (held page.old) (column_of page.old) (end_items ends ++ items))) }
{
    if ends == 0 {
        return Ok(());
    }
    write_item(sink, page, ends, b'$')
}

// Writes a run, after the row ends that are due before it, and returns how many are due then.
fn write_run<O: Sink>(sink: &mut O, page: &mut Page, ends: usize, run: Run) -> Result<usize, Failed>
    requires { IsCellTag run.tag }
    ensures fewer { IfOk result (λ after. after ≤ ends) }
    ensures ok { IfOk result (λ after. (tags : List ℕ) (rows : List (List State)) →
        IsRunBefore run.count run.tag tags →
        Wrote (O.written sink.old) (O.written sink.new) (O.faults sink.old) (O.faults sink.new)
        (text_left (held page.old) (column_of page.old)
        (row_left ends (replicate run.count run.tag ++ tags) rows))
        (text_left (held page.new) (column_of page.new) (row_left after tags rows))) }
    ensures err { OnErr result ((tags : List ℕ) (rows : List (List State)) →
        IsRunBefore run.count run.tag tags →
        Broke (O.written sink.old) (O.written sink.new) (O.faults sink.old) (O.faults sink.new)
        (text_left (held page.old) (column_of page.old)
        (row_left ends (replicate run.count run.tag ++ tags) rows))) }
{
    if run.count == 0 {
        return Ok(ends);
    }
    write_ends(sink, page, ends)?;
    write_item(sink, page, run.count, byte_of(run.tag))?;
    Ok(0)
}

// Writes the last run of a row, if its cells are not empty.
fn end_run<O: Sink>(sink: &mut O, page: &mut Page, ends: usize, run: Run) -> Result<usize, Failed>
    requires { IsCellTag run.tag }
    ensures fewer { IfOk result (λ after. after ≤ ends) }
    ensures ok { IfOk result (λ after. (rows : List (List State)) →
        Wrote (O.written sink.old) (O.written sink.new) (O.faults sink.old) (O.faults sink.new)
        (text_left (held page.old) (column_of page.old)
        (row_left ends (replicate run.count run.tag ++ []) rows))
        (text_left (held page.new) (column_of page.new) (row_left after [] rows))) }
    ensures err { OnErr result ((rows : List (List State)) →
        Broke (O.written sink.old) (O.written sink.new) (O.faults sink.old) (O.faults sink.new)
        (text_left (held page.old) (column_of page.old)
        (row_left ends (replicate run.count run.tag ++ []) rows))) }
{
    if run.tag == EMPTY {
        return Ok(ends);
    }
    write_run(sink, page, ends, run)
}

/// Writes a row's last run, if its cells are not empty, and returns how many row ends are due then,
/// its own among them.
pub fn end_row<O: Sink>(sink: &mut O, page: &mut Page, kept: Kept) -> Result<usize, Failed>
    requires cell { IsCellTag kept.run.tag }
    requires few { kept.due + 1 < 2 ^ 64 }
    ensures one_more { IfOk result (λ after. after ≤ kept.due + 1) }
    ensures ok { IfOk result (λ after. (rows : List (List State)) →
        Wrote (O.written sink.old) (O.written sink.new) (O.faults sink.old) (O.faults sink.new)
        (kept_left (held page.old) (column_of page.old) kept [] rows)
        (text_left (held page.new) (column_of page.new) (rows_left after rows))) }
    ensures err { OnErr result ((rows : List (List State)) →
        Broke (O.written sink.old) (O.written sink.new) (O.faults sink.old) (O.faults sink.new)
        (kept_left (held page.old) (column_of page.old) kept [] rows)) }
{
    let last = end_run(sink, page, kept.due, kept.run)?;
    Ok(last + 1)
}

/// Takes a run of more cells, and writes the kept run if it is of another tag. Returns what is kept
/// then: these cells, joined with the kept run if it is of the same tag.
pub fn add_run<O: Sink>(sink: &mut O, page: &mut Page, kept: Kept, run: Run) -> Result<Kept, Failed>
    requires cell { IsCellTag kept.run.tag }
    requires run { IsCellRun run }
    requires short { kept.run.count + run.count < 2 ^ 64 }
    ensures cell { IfOk result (λ k. IsCellTag k.run.tag) }
    ensures fewer { IfOk result (λ k. k.due ≤ kept.due) }
    ensures short { IfOk result (λ k. k.run.count ≤ kept.run.count + run.count) }
    ensures ok { IfOk result (TakesTags (O.written sink.old) (O.written sink.new) (O.faults sink.old)
        (O.faults sink.new) page.old page.new kept (replicate run.count run.tag)) }
    ensures err { OnErr result (BreaksInTags (O.written sink.old) (O.written sink.new) (O.faults sink.old)
        (O.faults sink.new) page.old kept (replicate run.count run.tag)) }
{
    let tag = run.tag;
    if tag == kept.run.tag {
        let count = kept.run.count + run.count;
        return Ok(Kept {
            due: kept.due,
            run: Run { count, tag },
        });
    }
    let due = write_run(sink, page, kept.due, kept.run)?;
    Ok(Kept { due, run })
}

/// Takes `count` more cells of one state, as `add_run` takes a run.
pub fn write_same<O: Sink>(
    sink: &mut O,
    page: &mut Page,
    kept: Kept,
    state: State,
    count: usize,
) -> Result<Kept, Failed>
    requires cell { IsCellTag kept.run.tag }
    requires some { 1 ≤ count }
    requires short { kept.run.count + count < 2 ^ 64 }
    ensures cell { IfOk result (λ k. IsCellTag k.run.tag) }
    ensures fewer { IfOk result (λ k. k.due ≤ kept.due) }
    ensures short { IfOk result (λ k. k.run.count ≤ kept.run.count + count) }
    ensures ok { IfOk result (TakesTags (O.written sink.old) (O.written sink.new) (O.faults sink.old)
        (O.faults sink.new) page.old page.new kept (replicate count (tag_of state))) }
    ensures err { OnErr result (BreaksInTags (O.written sink.old) (O.written sink.new) (O.faults sink.old)
        (O.faults sink.new) page.old kept (replicate count (tag_of state))) }
{
    let tag = cell_tag(state);
    add_run(sink, page, kept, Run { count, tag })
}
