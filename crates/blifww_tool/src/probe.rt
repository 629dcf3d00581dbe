// `probe`: the bits that a net of a pattern shows, as a line.
ghost use Rattle.std.specs.Prelude.{◌≡◌, ◌<◌, ◌⊎◌, ℕ, List, map, string_bytes, IfOk, IfErr};
ghost use Rattle.command_words.specs.Shapes.{probe};
ghost use Rattle.ww_rule.specs.Grid.{AreInBox};
ghost use Rattle.pattern_reading.specs.Ports.{cells_of};
ghost use Rattle.drive.specs.Driving.{AreFor};
ghost use Rattle.blifww_tool.specs.Simulation.{IsSimulation};
ghost use Rattle.blifww_tool.specs.Driven.{simulation_in};
ghost use Rattle.blifww_tool.specs.Answer.{output_text, IsWritableOutput};
ghost use Rattle.blifww_tool.specs.Commands.{Prints, HasTextCause};
ghost use Rattle.blifww_tool.specs.Probing.{names_in_contexts, net_text};
ghost use Rattle.program_runs.specs.Refusals.{probe_refusal};

use crate::driven::{Driven, driven_by};
use crate::lines::output_lines;
use crate::output::Output;
use drive::Streams;
use lists::{Bytes, List};
use pattern_reading::Ports;
use probe_view::ProbeError;
use program_runs::{Cause, TextError};
use std::alloc::{AllocError, Global};
use streams::with_context;
use ww_rule::Pattern;

// The error if the net is not shown. If there is no such net, it has a copy of the net's name.
fn refusal(alloc: Global, error: ProbeError, name: &[u8]) -> TextError
    ensures { (result ≡ TextError.NoMemory) ⊎ (result ≡ probe_refusal name.now error) }
{
    match error {
        ProbeError::NoSuchNet => match name.to_vec(alloc) {
            Ok(bytes) => TextError::Refused(Cause::NoSuchNet(Bytes::of(bytes))),
            Err(_) => TextError::NoMemory,
        },
        ProbeError::TooFar { generations } => TextError::Refused(Cause::TooFar { generations }),
        ProbeError::NotQuiet { generation, x, y } => {
            TextError::Refused(Cause::NotQuiet { generation, x, y })
        }
        ProbeError::NoMemory => TextError::NoMemory,
    }
}

// A net's name as it stands before its bits in each context.
fn names_in_contexts(alloc: Global, contexts: u64, name: &[u8]) -> Result<Vec<Bytes>, AllocError>
    ensures { IfOk result (λ names. names.items ≡ names_in_contexts contexts name.now) }
{
    let mut names = Vec::new(alloc);
    for context in 0..contexts {
        names.push(Bytes::of(with_context(alloc, contexts, context, name)?))?;
    }
    Ok(names)
}

// A line for each context, with a net's bits in it.
fn net_lines(
    alloc: Global,
    contexts: u64,
    name: &[u8],
    bits: &[List<bool>],
) -> Result<Bytes, AllocError>
    ensures { IfOk result (λ lines. lines ≡ net_text contexts name.now bits.now) }
{
    let names = names_in_contexts(alloc, contexts, name)?;
    output_lines(alloc, &names, bits)
}

// A line for each context, with the bits that a net of a pattern shows on streams.
fn shown(
    alloc: Global,
    pattern: Pattern,
    ports: &Ports,
    streams: &Streams,
    name: &[u8],
    path: &[u8],
) -> Result<Output, TextError>
    requires cycles { 0 < streams.now.cycles }
    requires streams { AreFor ports.now streams.now }
    requires in_box { AreInBox pattern.width pattern.height (cells_of ports.now.ins) }
    ensures printed { IfOk result (λ output. (cycles : ℕ) (words : List (List ℕ)) (text : List ℕ)
        → IsSimulation cycles words text (simulation_in pattern ports.now streams.now)
        → Prints (probe cycles name.now path.now words) text (output_text output)) }
    ensures writable { IfOk result IsWritableOutput }
    ensures refused { IfErr result (λ e. (cycles : ℕ) (words : List (List ℕ)) (text : List ℕ)
        → IsSimulation cycles words text (simulation_in pattern ports.now streams.now)
        → HasTextCause (probe cycles name.now path.now words) text e) }
{
    match probe_view::probe(alloc, pattern, ports, streams, name, path) {
        Ok(bits) => Ok(Output::Lines(net_lines(alloc, ports.c, name, bits.as_slice())?)),
        Err(error) => Err(refusal(alloc, error, name)),
    }
}

/// Makes a line for each context, with the bits that the cell of a net of the text's pattern shows.
/// The words are the streams of the inputs.
pub fn probe(
    alloc: Global,
    cycles: usize,
    name: &[u8],
    path: &[u8],
    words: &[String],
    text: &[u8],
) -> Result<Output, TextError>
    requires some_cycle { 0 < cycles }
    ensures printed { IfOk result (λ output.
        Prints (probe cycles name.now path.now (map string_bytes words.now)) text.now
        (output_text output)) }
    ensures writable { IfOk result IsWritableOutput }
    ensures refused { IfErr result (λ e.
        HasTextCause (probe cycles name.now path.now (map string_bytes words.now)) text.now e) }
{
    let driven = driven_by(alloc, cycles, words, text)?;
    let Driven {
        pattern,
        ports,
        streams,
    } = driven;
    let output = shown(alloc, pattern, &ports, &streams, name, path);
    drop(streams);
    drop(ports);
    output
}
