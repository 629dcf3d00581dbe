// `eval`: the bits of a netlist's outputs, as lines.
ghost use Rattle.std.specs.Prelude.{◌≡◌, All, map, length, string_bytes, IfOk, IfErr};
ghost use Rattle.command_words.specs.Shapes.{eval};
ghost use Rattle.netlist_text.specs.Parts.{AreParts};
ghost use Rattle.blifww_tool.specs.Answer.{output_text, IsWritableOutput};
ghost use Rattle.blifww_tool.specs.Commands.{Prints, HasTextCause};
ghost use Rattle.blifww_tool.specs.Evaluation.{FeedsInputs, HasInputsCause, PrintsRun};
ghost use Rattle.program_runs.specs.declared.causes.TextError.TheVariants.{NoMemory};

use crate::lines::output_lines;
use crate::output::Output;
use drive::{StreamError, Streams};
use netlist_text::{Netlist, netlist_of};
use program_runs::TextError;
use std::alloc::Global;

/// Reads the streams that the words give to a netlist's inputs.
pub fn streams_for(
    alloc: Global,
    cycles: usize,
    words: &[String],
    netlist: &Netlist,
) -> Result<Streams, StreamError>
    requires { AreParts netlist.now.design netlist.now.flat netlist.now.order.nodes }
    ensures streams { IfOk result (FeedsInputs 1 cycles
        (map string_bytes words.now) netlist.now.design) }
    ensures many { IfOk result (λ streams. length streams.bits ≡ length netlist.now.flat.ins) }
    ensures long { IfOk result (λ streams. All (λ bits. length bits ≡
        streams.cycles) streams.bits) }
    ensures fault { IfErr result (HasInputsCause cycles
        (map string_bytes words.now) netlist.now.design) }
{
    let ins = netlist.in_names(alloc)?;
    let read = Streams::read(alloc, words, ins.as_slice(), cycles, 1);
    drop(ins);
    let streams = read?;
    Ok(streams)
}

// A line for each output of a netlist, with its bits on the streams.
fn run_lines(alloc: Global, netlist: Netlist, streams: &Streams) -> Result<Output, TextError>
    requires parts { AreParts netlist.design netlist.flat netlist.order.nodes }
    requires many { length streams.now.bits ≡ length netlist.flat.ins }
    requires long { All (λ bits. length bits ≡ streams.now.cycles) streams.now.bits }
    ensures printed { IfOk result (λ output. PrintsRun netlist.design streams.now
        (output_text output)) }
    ensures writable { IfOk result IsWritableOutput }
    ensures refused { IfErr result (λ e. e ≡ NoMemory) }
{
    let outs = netlist.out_names(alloc)?;
    let bits = netlist_run::run(alloc, netlist, streams)?;
    let made = output_lines(alloc, outs.as_slice(), bits.as_slice());
    drop(bits);
    drop(outs);
    let lines = made?;
    Ok(Output::Lines(lines))
}

/// Makes a line for each output of the text's netlist, with the output's bits. The words are the
/// streams of the inputs.
pub fn eval(
    alloc: Global,
    cycles: usize,
    words: &[String],
    text: &[u8],
) -> Result<Output, TextError>
    ensures printed { IfOk result (λ output.
        Prints (eval cycles (map string_bytes words.now)) text.now (output_text output)) }
    ensures writable { IfOk result IsWritableOutput }
    ensures refused { IfErr result (λ e. HasTextCause
        (eval cycles (map string_bytes words.now)) text.now e) }
{
    let netlist = netlist_of(alloc, text)?;
    let streams = streams_for(alloc, cycles, words, &netlist)?;
    let output = run_lines(alloc, netlist, &streams);
    drop(streams);
    output
}
