// `tape`: the pattern of a netlist with its streams on a tape.
ghost use Rattle.std.specs.Prelude.{◌≡◌, ◌≤◌, ℕ, List, All, map, length, string_bytes, IfOk, IfErr};
ghost use Rattle.netlist_text.specs.NetlistText.{IsNetlist};
ghost use Rattle.netlist_text.specs.Parts.{AreParts};
ghost use Rattle.plan_ports.specs.Tables.{HasPortNames};
ghost use Rattle.command_words.specs.Shapes.{tape};
ghost use Rattle.blifww_tool.specs.Answer.{output_text, IsWritableOutput};
ghost use Rattle.blifww_tool.specs.Commands.{Prints, HasTextCause};
ghost use Rattle.blifww_tool.specs.Taping.{IsTapeOf};
ghost use Rattle.program_runs.specs.declared.causes.TextError.TheVariants.{NoMemory};

use crate::compile::plan_of;
use crate::eval::streams_for;
use crate::output::Output;
use drive::Streams;
use netlist_plans::load_netlist;
use netlist_text::{Netlist, netlist_of};
use program_runs::TextError;
use std::alloc::Global;

// The pattern of a netlist with these streams on its tape.
fn taped(alloc: Global, netlist: &Netlist, streams: &Streams) -> Result<Output, TextError>
    requires parts { AreParts netlist.now.design netlist.now.flat netlist.now.order.nodes }
    requires names { HasPortNames netlist.now.flat }
    requires many { length streams.now.bits ≡ length netlist.now.flat.ins }
    requires long { All (λ bits. length bits ≡ streams.now.cycles) streams.now.bits }
    requires some { 1 ≤ streams.now.cycles }
    requires few { streams.now.cycles ≤ 4096 }
    ensures taped { IfOk result (λ output. IsTapeOf netlist.now.design streams.now
        (output_text output)) }
    ensures writable { IfOk result IsWritableOutput }
    ensures refused { IfErr result (λ e. e ≡ NoMemory) }
{
    let plan = plan_of(alloc, netlist)?;
    let loaded = load_netlist(alloc, &netlist.flat, plan, streams)?;
    Ok(Output::Drawing(loaded))
}

// The pattern of a netlist whose tape has the streams that the words give.
fn fed(
    alloc: Global,
    cycles: usize,
    words: &[String],
    netlist: &Netlist,
) -> Result<Output, TextError>
    requires some_cycle { 1 ≤ cycles }
    requires few_cycles { cycles ≤ 4096 }
    requires parts { AreParts netlist.now.design netlist.now.flat netlist.now.order.nodes }
    requires names { HasPortNames netlist.now.flat }
    ensures printed { IfOk result (λ output. (text : List ℕ) → IsNetlist text netlist.now.design
        → Prints (tape cycles (map string_bytes words.now)) text (output_text output)) }
    ensures writable { IfOk result IsWritableOutput }
    ensures refused { IfErr result (λ e. (text : List ℕ) → IsNetlist text netlist.now.design
        → HasTextCause (tape cycles (map string_bytes words.now)) text e) }
{
    let streams = streams_for(alloc, cycles, words, netlist)?;
    let output = taped(alloc, netlist, &streams);
    drop(streams);
    output
}

/// Makes the pattern of the netlist whose text this is, which runs by itself on the streams that
/// the words give to the netlist's inputs, and on zeros after them. Its table names no inputs.
pub fn tape(
    alloc: Global,
    cycles: usize,
    words: &[String],
    text: &[u8],
) -> Result<Output, TextError>
    requires some_cycle { 1 ≤ cycles }
    requires few_cycles { cycles ≤ 4096 }
    ensures printed { IfOk result (λ output.
        Prints (tape cycles (map string_bytes words.now)) text.now (output_text output)) }
    ensures writable { IfOk result IsWritableOutput }
    ensures refused { IfErr result (λ e. HasTextCause
        (tape cycles (map string_bytes words.now)) text.now e) }
{
    let netlist = netlist_of(alloc, text)?;
    let output = fed(alloc, cycles, words, &netlist);
    drop(netlist);
    output
}
