// Laps: copies of the same cells after which the column on the line and the kept run are again what
// they were. So the bytes of the next lap are the same, and are put on the page at once.
ghost use Rattle.std.specs.Prelude.{◌≡◌, ◌≤◌, ◌<◌, ◌+◌, ◌^◌, [], length, All, IfOk, IfSome, OnErr, IsTrue};
ghost use Rattle.rle_write.specs.LapBytes.{bytes_of};
ghost use Rattle.rle_write.specs.Laps.{IsLap};
ghost use Rattle.rle_write.specs.Runs.{IsCellRun, IsCellTag, repeated, spelled};
ghost use Rattle.rle_write.specs.Taken.{BreaksInTags, TakesTags};

use crate::copies::{add_copies, add_runs};
use crate::lap_sink::Lap;
use crate::rows::{Kept, Run};
use ww_base::{Failed, Page, Sink};

// The most copies of a lap, as many as there are columns: by then one has come again.
const COPIES: usize = 71;

// After so many copies the columns have begun to come again: two lines of cells that take four
// bytes, as the shortest do.
const FIRST: usize = 36;

// How many copies are worth the search for a lap.
const MANY: usize = 96;

// Whether the same is kept.
fn is_same(a: Kept, b: Kept) -> bool
    ensures { IsTrue result → a ≡ b }
{
    a.due == b.due && a.run.count == b.run.count && a.run.tag == b.run.tag
}

// Finds the lap that begins at this column and with this run, puts its bytes into `lap`, and returns
// how many copies of the cells it has, if it has at most `most`.
fn find_lap(lap: &mut Lap, column: usize, kept: Kept, runs: &[Run], most: usize) -> Option<usize>
    requires short_line { column ≤ 70 }
    requires cell { IsCellTag kept.run.tag }
    requires runs { All IsCellRun runs.now }
    requires short { kept.run.count + length (repeated most (spelled runs.now)) < 2 ^ 64 }
    requires empty { bytes_of lap.old ≡ [] }
    ensures { IfSome result (λ copies. (1 ≤ copies) × IsLap column kept runs.now copies (bytes_of lap.new)) }
{
    let mut page = Page::new();
    page.advance(column);
    let mut now = kept;
    for before in 0..most {
        let Ok(next) = add_runs(lap, &mut page, now, runs) else {
            return None;
        };
        now = next;
        if page.column() == column && is_same(now, kept) {
            let Ok(()) = page.flush(lap) else {
                return None;
            };
            return Some(before + 1);
        }
    }
    None
}

// Takes `count` copies of the cells that these runs spell: if a lap begins here, its bytes as often
// as its copies are among them, and then those that are left.
fn add_laps<O: Sink>(
    sink: &mut O,
    page: &mut Page,
    kept: Kept,
    runs: &[Run],
    count: usize,
) -> Result<Kept, Failed>
    requires cell { IsCellTag kept.run.tag }
    requires runs { All IsCellRun runs.now }
    requires short { kept.run.count + length (repeated count (spelled runs.now)) < 2 ^ 64 }
    ensures cell { IfOk result (λ k. IsCellTag k.run.tag) }
    ensures fewer { IfOk result (λ k. k.due ≤ kept.due) }
    ensures short { IfOk result (λ k. k.run.count ≤ kept.run.count + length (repeated count (spelled runs.now))) }
    ensures ok { IfOk result (TakesTags (O.written sink.old) (O.written sink.new) (O.faults sink.old)
        (O.faults sink.new) page.old page.new kept (repeated count (spelled runs.now))) }
    ensures err { OnErr result (BreaksInTags (O.written sink.old) (O.written sink.new) (O.faults sink.old)
        (O.faults sink.new) page.old kept (repeated count (spelled runs.now))) }
{
    let mut lap = Lap::new();
    let most = count.min(COPIES);
    let copies = find_lap(&mut lap, page.column(), kept, runs, most).unwrap_or(0);
    let mut left = count;
    'laps: while copies > 0 && copies <= left {
        page.put(sink, lap.bytes())?;
        left -= copies;
    }
    add_copies(sink, page, kept, runs, left)
}

// Takes `count` copies of the cells that these runs spell, the first of them one by one.
fn add_after<O: Sink>(
    sink: &mut O,
    page: &mut Page,
    kept: Kept,
    runs: &[Run],
    first: usize,
    count: usize,
) -> Result<Kept, Failed>
    requires cell { IsCellTag kept.run.tag }
    requires runs { All IsCellRun runs.now }
    requires first { first ≤ count }
    requires short { kept.run.count + length (repeated count (spelled runs.now)) < 2 ^ 64 }
    ensures cell { IfOk result (λ k. IsCellTag k.run.tag) }
    ensures fewer { IfOk result (λ k. k.due ≤ kept.due) }
    ensures short { IfOk result (λ k. k.run.count ≤ kept.run.count + length (repeated count (spelled runs.now))) }
    ensures ok { IfOk result (TakesTags (O.written sink.old) (O.written sink.new) (O.faults sink.old)
        (O.faults sink.new) page.old page.new kept (repeated count (spelled runs.now))) }
    ensures err { OnErr result (BreaksInTags (O.written sink.old) (O.written sink.new) (O.faults sink.old)
        (O.faults sink.new) page.old kept (repeated count (spelled runs.now))) }
{
    let begun = add_copies(sink, page, kept, runs, first)?;
    add_laps(sink, page, begun, runs, count - first)
}

/// Takes `count` copies of the cells that these runs spell, lap by lap if they are many.
pub fn add_many<O: Sink>(
    sink: &mut O,
    page: &mut Page,
    kept: Kept,
    runs: &[Run],
    count: usize,
) -> Result<Kept, Failed>
    requires cell { IsCellTag kept.run.tag }
    requires runs { All IsCellRun runs.now }
    requires short { kept.run.count + length (repeated count (spelled runs.now)) < 2 ^ 64 }
    ensures cell { IfOk result (λ k. IsCellTag k.run.tag) }
    ensures fewer { IfOk result (λ k. k.due ≤ kept.due) }
    ensures short { IfOk result (λ k. k.run.count ≤ kept.run.count + length (repeated count (spelled runs.now))) }
    ensures ok { IfOk result (TakesTags (O.written sink.old) (O.written sink.new) (O.faults sink.old)
        (O.faults sink.new) page.old page.new kept (repeated count (spelled runs.now))) }
    ensures err { OnErr result (BreaksInTags (O.written sink.old) (O.written sink.new) (O.faults sink.old)
        (O.faults sink.new) page.old kept (repeated count (spelled runs.now))) }
{
    if count < MANY {
        return add_copies(sink, page, kept, runs, count);
    }
    add_after(sink, page, kept, runs, FIRST, count)
}
