// Copies of the same cells, run by run, or at once where their bytes are known.
ghost use Rattle.std.specs.Prelude.{◌≡◌, ◌≤◌, ◌<◌, ◌+◌, ◌^◌, [], length, All, IfOk, IfSome, OnErr};
ghost use Rattle.rle_write.specs.Runs.{IsCellRun, IsCellTag, repeated, spelled};
ghost use Rattle.rle_write.specs.StepBytes.{bytes_in};
ghost use Rattle.rle_write.specs.Steps.{IsRowStep, IsStepOver};
ghost use Rattle.rle_write.specs.Taken.{BreaksInTags, TakesTags};

use crate::rows::{Kept, Run, add_run};
use crate::step_bytes::StepBytes;
use crate::steps::{Step, find_step, is_here};
use ww_base::{Failed, Page, Sink};

// How many copies are worth the search for a step.
const FEW: usize = 2;

// Takes runs of more cells one by one.
pub fn add_runs<O: Sink>(
    sink: &mut O,
    page: &mut Page,
    kept: Kept,
    runs: &[Run],
) -> Result<Kept, Failed>
    requires cell { IsCellTag kept.run.tag }
    requires runs { All IsCellRun runs.now }
    requires short { kept.run.count + length (spelled runs.now) < 2 ^ 64 }
    ensures cell { IfOk result (λ k. IsCellTag k.run.tag) }
    ensures fewer { IfOk result (λ k. k.due ≤ kept.due) }
    ensures short { IfOk result (λ k. k.run.count ≤ kept.run.count + length (spelled runs.now)) }
    ensures ok { IfOk result (TakesTags (O.written sink.old) (O.written sink.new) (O.faults sink.old)
        (O.faults sink.new) page.old page.new kept (spelled runs.now)) }
    ensures err { OnErr result (BreaksInTags (O.written sink.old) (O.written sink.new) (O.faults sink.old)
        (O.faults sink.new) page.old kept (spelled runs.now)) }
{
    let mut kept = kept;
    for run in runs {
        kept = add_run(sink, page, kept, *run)?;
    }
    Ok(kept)
}

// Takes the cells that these runs spell, at once if there is a step over them that can be taken.
fn add_step<O: Sink>(
    sink: &mut O,
    page: &mut Page,
    kept: Kept,
    runs: &[Run],
    step: Option<Step>,
    bytes: &[u8],
) -> Result<Kept, Failed>
    requires cell { IsCellTag kept.run.tag }
    requires runs { All IsCellRun runs.now }
    requires short { kept.run.count + length (spelled runs.now) < 2 ^ 64 }
    requires step { IfSome step (λ s. IsStepOver s.from runs.now bytes.now s.after) }
    ensures cell { IfOk result (λ k. IsCellTag k.run.tag) }
    ensures fewer { IfOk result (λ k. k.due ≤ kept.due) }
    ensures short { IfOk result (λ k. k.run.count ≤ kept.run.count + length (spelled runs.now)) }
    ensures ok { IfOk result (TakesTags (O.written sink.old) (O.written sink.new) (O.faults sink.old)
        (O.faults sink.new) page.old page.new kept (spelled runs.now)) }
    ensures err { OnErr result (BreaksInTags (O.written sink.old) (O.written sink.new) (O.faults sink.old)
        (O.faults sink.new) page.old kept (spelled runs.now)) }
{
    let Some(step) = step else {
        return add_runs(sink, page, kept, runs);
    };
    if !is_here(page, kept, step, bytes.len()) {
        return add_runs(sink, page, kept, runs);
    }
    page.put(sink, bytes)?;
    page.advance(bytes.len());
    Ok(Kept {
        due: 0,
        run: step.after,
    })
}

/// Takes the cells that these runs spell: the first two runs one by one, and the others at once if
/// there is a step over them that can be taken.
pub fn add_row<O: Sink>(
    sink: &mut O,
    page: &mut Page,
    kept: Kept,
    runs: &[Run],
    step: Option<Step>,
    bytes: &[u8],
) -> Result<Kept, Failed>
    requires cell { IsCellTag kept.run.tag }
    requires runs { All IsCellRun runs.now }
    requires short { kept.run.count + length (spelled runs.now) < 2 ^ 64 }
    requires step { IsRowStep step runs.now bytes.now }
    ensures cell { IfOk result (λ k. IsCellTag k.run.tag) }
    ensures fewer { IfOk result (λ k. k.due ≤ kept.due) }
    ensures short { IfOk result (λ k. k.run.count ≤ kept.run.count + length (spelled runs.now)) }
    ensures ok { IfOk result (TakesTags (O.written sink.old) (O.written sink.new) (O.faults sink.old)
        (O.faults sink.new) page.old page.new kept (spelled runs.now)) }
    ensures err { OnErr result (BreaksInTags (O.written sink.old) (O.written sink.new) (O.faults sink.old)
        (O.faults sink.new) page.old kept (spelled runs.now)) }
{
    if runs.len() < 2 {
        return add_runs(sink, page, kept, runs);
    }
    let begun = add_runs(sink, page, kept, &runs[..2])?;
    add_step(sink, page, begun, &runs[2..], step, bytes)
}

// Finds the step from a kept run over the cells that these runs spell, and puts its bytes into
// `bytes`, if so many copies of the cells are worth it.
fn step_for(bytes: &mut StepBytes, from: Run, runs: &[Run], count: usize) -> Option<Step>
    requires cell { IsCellTag from.tag }
    requires runs { All IsCellRun runs.now }
    requires short { from.count + length (repeated count (spelled runs.now)) < 2 ^ 64 }
    requires empty { bytes_in bytes.old ≡ [] }
    ensures { IfSome result (λ s. IsStepOver s.from runs.now (bytes_in bytes.new) s.after) }
{
    if count < FEW {
        return None;
    }
    find_step(bytes, from, runs)
}

// Takes `count` copies of the cells that these runs spell, step by step if they are many.
fn add_steps<O: Sink>(
    sink: &mut O,
    page: &mut Page,
    kept: Kept,
    runs: &[Run],
    count: usize,
) -> Result<Kept, Failed>
    requires cell { IsCellTag kept.run.tag }
    requires runs { All IsCellRun runs.now }
    requires short { kept.run.count + length (repeated count (spelled runs.now)) < 2 ^ 64 }
    ensures cell { IfOk result (λ k. IsCellTag k.run.tag) }
    ensures fewer { IfOk result (λ k. k.due ≤ kept.due) }
    ensures short { IfOk result (λ k. k.run.count ≤ kept.run.count + length (repeated count (spelled runs.now))) }
    ensures ok { IfOk result (TakesTags (O.written sink.old) (O.written sink.new) (O.faults sink.old)
        (O.faults sink.new) page.old page.new kept (repeated count (spelled runs.now))) }
    ensures err { OnErr result (BreaksInTags (O.written sink.old) (O.written sink.new) (O.faults sink.old)
        (O.faults sink.new) page.old kept (repeated count (spelled runs.now))) }
{
    let mut bytes = StepBytes::new();
    let step = step_for(&mut bytes, kept.run, runs, count);
    let mut kept = kept;
    for _ in 0..count {
        kept = add_step(sink, page, kept, runs, step, bytes.bytes())?;
    }
    Ok(kept)
}

/// Takes `count` copies of the cells that these runs spell.
pub fn add_copies<O: Sink>(
    sink: &mut O,
    page: &mut Page,
    kept: Kept,
    runs: &[Run],
    count: usize,
) -> Result<Kept, Failed>
    requires cell { IsCellTag kept.run.tag }
    requires runs { All IsCellRun runs.now }
    requires short { kept.run.count + length (repeated count (spelled runs.now)) < 2 ^ 64 }
    ensures cell { IfOk result (λ k. IsCellTag k.run.tag) }
    ensures fewer { IfOk result (λ k. k.due ≤ kept.due) }
    ensures short { IfOk result (λ k. k.run.count ≤ kept.run.count + length (repeated count (spelled runs.now))) }
    ensures ok { IfOk result (TakesTags (O.written sink.old) (O.written sink.new) (O.faults sink.old)
        (O.faults sink.new) page.old page.new kept (repeated count (spelled runs.now))) }
    ensures err { OnErr result (BreaksInTags (O.written sink.old) (O.written sink.new) (O.faults sink.old)
        (O.faults sink.new) page.old kept (repeated count (spelled runs.now))) }
{
    if count == 0 {
        return Ok(kept);
    }
    let begun = add_runs(sink, page, kept, runs)?;
    add_steps(sink, page, begun, runs, count - 1)
}
