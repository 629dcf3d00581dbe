// Steps: cells whose items are known together with the run that is kept before them. So if their
// bytes fit on the line, they are put on the page at once.
ghost use Rattle.std.specs.Prelude.{◌≡◌, ◌≢◌, ◌≤◌, ◌<◌, ◌+◌, ◌^◌, [], ◌++◌, length, replicate, All, IfSome, IsTrue};
ghost use Rattle.pattern_writing.specs.Writer.{run_text};
ghost use Rattle.rle_write.specs.Runs.{IsCellRun, IsCellTag, spelled};
ghost use Rattle.rle_write.specs.StepBytes.{bytes_in};
ghost use Rattle.rle_write.specs.Steps.{IsNextStep, IsStepOver};
ghost use Rattle.ww_base.specs.Pages.{column_of};

use crate::items::{LINE, digit};
use crate::rows::{Kept, Run, byte_of};
use crate::step_bytes::StepBytes;
use ww_base::Page;

/// The run that is kept before a step, and the one that is kept after it.
#[derive(Clone, Copy)]
pub struct Step {
    pub from: Run,
    pub after: Run,
}

// Puts the item of a run of less than 100 cells behind the bytes of a step, and returns whether it
// did.
fn put_item(bytes: &mut StepBytes, run: Run) -> bool
    requires { IsCellTag run.tag }
    ensures some { IsTrue result → run.count ≢ 0 }
    ensures bytes { IsTrue result →
        bytes_in bytes.new ≡ bytes_in bytes.old ++ run_text (record { count = run.count; tag = run.tag }) }
{
    let (count, tag) = (run.count, byte_of(run.tag));
    if count == 0 {
        false
    } else if count == 1 {
        bytes.put(&[tag])
    } else if count < 10 {
        bytes.put(&[digit(count), tag])
    } else if count < 100 {
        bytes.put(&[digit(count / 10), digit(count % 10), tag])
    } else {
        false
    }
}

// Goes on with a step over one more run, and returns the run that is kept then.
fn next_after(bytes: &mut StepBytes, before: Run, run: Run) -> Option<Run>
    requires cell { IsCellTag before.tag }
    requires run { IsCellRun run }
    requires short { before.count + run.count < 2 ^ 64 }
    ensures { IfSome result (IsNextStep before (replicate run.count run.tag) (bytes_in bytes.old)
        (bytes_in bytes.new)) }
{
    if run.tag == before.tag {
        return Some(Run {
            count: before.count + run.count,
            tag: run.tag,
        });
    }
    if !put_item(bytes, before) {
        return None;
    }
    Some(run)
}

/// Finds the step from a kept run over the cells that these runs spell, and puts its bytes into
/// `bytes`. There is none if a run of more than 99 cells ends in it, or if its bytes fit on no line.
pub fn find_step(bytes: &mut StepBytes, from: Run, runs: &[Run]) -> Option<Step>
    requires cell { IsCellTag from.tag }
    requires runs { All IsCellRun runs.now }
    requires short { from.count + length (spelled runs.now) < 2 ^ 64 }
    requires empty { bytes_in bytes.old ≡ [] }
    ensures { IfSome result (λ s. IsStepOver s.from runs.now (bytes_in bytes.new) s.after) }
{
    let mut after = from;
    for run in runs {
        after = next_after(bytes, after, *run)?;
    }
    Some(Step { from, after })
}

/// Whether a step can be taken here: no row end is due, its run is kept, and so many bytes fit on
/// the line.
pub fn is_here(page: &Page, kept: Kept, step: Step, size: usize) -> bool
    ensures due { IsTrue result → kept.due ≡ 0 }
    ensures from { IsTrue result → kept.run ≡ step.from }
    ensures room { IsTrue result → column_of page.now + size ≤ 70 }
{
    kept.due == 0
        && kept.run.count == step.from.count
        && kept.run.tag == step.from.tag
        && size <= LINE - page.column()
}
