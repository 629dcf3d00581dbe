// `simulate`: the bits that a pattern's outputs show, as lines.
ghost use Rattle.std.specs.Prelude.{◌≡◌, ◌<◌, ℕ, List, map, flat_map, zip, string_bytes, IfOk, IfErr};
ghost use Rattle.std.specs.List.{range_with_len};
ghost use Rattle.ww_rule.specs.Grid.{AreInBox};
ghost use Rattle.command_words.specs.Shapes.{simulate};
ghost use Rattle.blifww_tool.specs.Answer.{output_text, IsWritableOutput};
ghost use Rattle.blifww_tool.specs.Commands.{Prints, HasTextCause};
ghost use Rattle.blifww_tool.specs.Driven.{names_in_context, simulation_in};
ghost use Rattle.blifww_tool.specs.Simulation.{IsSimulation};
ghost use Rattle.drive.specs.Driving.{AreFor};
ghost use Rattle.pattern_reading.specs.Ports.{cells_of};
ghost use Rattle.blifww_tool.specs.Lines.{bits_line};

use crate::driven::{Driven, driven_by, names_in_contexts};
use crate::lines::output_lines;
use crate::output::Output;
use drive::Streams;
use lists::{Bytes, List};
use pattern_reading::Ports;
use program_runs::TextError;
use std::alloc::{AllocError, Global};
use ww_rule::Pattern;

// A line for each output in each context, by the bits that it shows.
fn shown_lines(alloc: Global, ports: &Ports, bits: &[List<bool>]) -> Result<Bytes, AllocError>
    ensures { IfOk result (λ lines. lines ≡ flat_map (λ p. bits_line p.0 p.1)
        (zip (flat_map (names_in_context ports.now.c ports.now.outs)
        (range_with_len 0 ports.now.c)) bits.now)) }
{
    let outs = names_in_contexts(alloc, ports.outs.as_slice(), ports.c)?;
    output_lines(alloc, &outs, bits)
}

// A line for each output in each context, with the bits that it shows on streams.
fn shown(
    alloc: Global,
    pattern: Pattern,
    ports: &Ports,
    streams: &Streams,
) -> Result<Output, TextError>
    requires cycles { 0 < streams.now.cycles }
    requires streams { AreFor ports.now streams.now }
    requires in_box { AreInBox pattern.width pattern.height (cells_of ports.now.ins) }
    ensures printed { IfOk result (λ output. (cycles : ℕ) (words : List (List ℕ)) (text : List ℕ)
        → IsSimulation cycles words text (simulation_in pattern ports.now streams.now)
        → Prints (simulate cycles words) text (output_text output)) }
    ensures writable { IfOk result IsWritableOutput }
    ensures refused { IfErr result (λ e. (cycles : ℕ) (words : List (List ℕ)) (text : List ℕ)
        → IsSimulation cycles words text (simulation_in pattern ports.now streams.now)
        → HasTextCause (simulate cycles words) text e) }
{
    let bits = drive::simulate(alloc, pattern, ports, streams)?;
    let made = shown_lines(alloc, ports, bits.as_slice());
    drop(bits);
    let lines = made?;
    Ok(Output::Lines(lines))
}

/// Makes a line for each output of the text's pattern in each of its contexts, with the bits that
/// the output shows. The words are the streams of the inputs. All outputs of context 0 come first.
/// The plane is run, whatever the pattern is. For long runs: `lift`, then `eval`, which prints the
/// same lines (`lifted_print_alike` of `program_laws`); `lift` takes one context, and of tapes
/// those that add nothing.
pub fn simulate(
    alloc: Global,
    cycles: usize,
    words: &[String],
    text: &[u8],
) -> Result<Output, TextError>
    requires some_cycle { 0 < cycles }
    ensures printed { IfOk result (λ output.
        Prints (simulate cycles (map string_bytes words.now)) text.now (output_text output)) }
    ensures writable { IfOk result IsWritableOutput }
    ensures refused { IfErr result (λ e. HasTextCause
        (simulate cycles (map string_bytes words.now)) text.now e) }
{
    let driven = driven_by(alloc, cycles, words, text)?;
    let Driven {
        pattern,
        ports,
        streams,
    } = driven;
    let output = shown(alloc, pattern, &ports, &streams);
    drop(streams);
    drop(ports);
    output
}
