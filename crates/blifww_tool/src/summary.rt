// `self`: the summary of a netlist that is made from a seed, as lines.
ghost use Rattle.std.specs.Prelude.{◌≡◌, ◌++◌, List, ℕ, IfOk, IfErr, OnOk, flat_map};
ghost use Rattle.command_words.specs.Shapes.{self_, HasNumbersInRange};
ghost use Rattle.blifww_tool.specs.Answer.{output_text, IsWritableOutput};
ghost use Rattle.blifww_tool.specs.Commands.{HasTextCause};
ghost use Rattle.blifww_tool.specs.Summary.{number_line, output_lines, summarizing_error, summary_text, TellsSummary};

use crate::lines::push_line;
use crate::output::Output;
use itoa::Buffer;
use lists::Bytes;
use made_summary::{OutputBits, Summary, SummaryError, summarize};
use program_runs::{Cause, TextError};
use std::alloc::{AllocError, Global};

// Adds a number's line.
fn push_number(lines: &mut Vec<u8>, name: &[u8], number: u64) -> Result<(), AllocError>
    ensures { OnOk result (lines.new.items ≡ lines.old.items ++ number_line name.now number) }
{
    let mut digits = Buffer::new();
    lines.extend_from_slice(name)?;
    lines.push(b' ')?;
    lines.extend_from_slice(digits.format(number).as_bytes())?;
    lines.push(b'\n')?;
    Ok(())
}

// Adds the two lines of each output.
fn push_outputs(lines: &mut Vec<u8>, outputs: &[OutputBits]) -> Result<(), AllocError>
    ensures { OnOk result (lines.new.items ≡ lines.old.items ++ flat_map output_lines outputs.now) }
{
    for output in outputs {
        lines.extend_from_slice(b"sim ")?;
        push_line(lines, output.name.as_slice(), output.simulated.as_slice())?;
        lines.extend_from_slice(b"eval ")?;
        push_line(lines, output.name.as_slice(), output.evaluated.as_slice())?;
    }
    Ok(())
}

// The lines of a summary.
fn summary_lines(alloc: Global, summary: &Summary) -> Result<Bytes, AllocError>
    ensures { IfOk result (λ lines. lines ≡ summary_text summary.now) }
{
    let mut lines = Vec::new(alloc);
    push_number(&mut lines, b"weight", summary.weight)?;
    push_number(&mut lines, b"lanes", summary.lanes)?;
    push_number(&mut lines, b"columns", summary.columns)?;
    push_number(&mut lines, b"P", summary.p)?;
    push_number(&mut lines, b"L", summary.l)?;
    push_outputs(&mut lines, summary.outputs.as_slice())?;
    Ok(Bytes::of(lines))
}

// Why there is no summary, as the error of a text.
fn text_error(error: SummaryError) -> TextError
    ensures { result ≡ summarizing_error error }
{
    match error {
        SummaryError::TooFar { generations } => TextError::Refused(Cause::TooFar { generations }),
        SummaryError::NoMemory => TextError::NoMemory,
    }
}

/// Makes the lines of the summary of a netlist, given by a seed and a number of gates, under so
/// many cycles of bits that are drawn after it: its weight, the lanes and columns of its plan, the
/// period and latency of its pattern, and for each output the bits that the pattern shows and those
/// that the netlist gives. It reads nothing.
pub fn summary(alloc: Global, seed: u32, size: u32, cycles: usize) -> Result<Output, TextError>
    requires numbers { HasNumbersInRange (self_ seed size cycles) }
    ensures printed { IfOk result (λ output. TellsSummary seed size cycles (output_text output)) }
    ensures writable { IfOk result IsWritableOutput }
    ensures refused { IfErr result (λ e. (text : List ℕ) →
        HasTextCause (self_ seed size cycles) text e) }
{
    let summary = match summarize(alloc, seed, size, cycles) {
        Ok(summary) => summary,
        Err(error) => return Err(text_error(error)),
    };
    let made = summary_lines(alloc, &summary);
    drop(summary);
    let lines = made?;
    Ok(Output::Lines(lines))
}
