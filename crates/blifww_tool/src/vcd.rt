// `vcd`: the bits that all nets of a pattern show, as a VCD text.
ghost use Rattle.std.specs.Prelude.{◌<◌, map, string_bytes, IfOk, IfErr};
ghost use Rattle.command_words.specs.Shapes.{vcd};
ghost use Rattle.blifww_tool.specs.Answer.{output_text, IsWritableOutput};
ghost use Rattle.blifww_tool.specs.Commands.{Prints, HasTextCause};

use crate::driven::{Driven, driven_by};
use crate::output::Output;
use program_runs::TextError;
use std::alloc::Global;

/// Makes the dump of the bits that the nets of the text's pattern show in each of its contexts. The
/// words are the streams of the inputs. All nets of context 0 come first.
pub fn vcd(alloc: Global, cycles: usize, words: &[String], text: &[u8]) -> Result<Output, TextError>
    requires some_cycle { 0 < cycles }
    ensures printed { IfOk result (λ output.
        Prints (vcd cycles (map string_bytes words.now)) text.now (output_text output)) }
    ensures writable { IfOk result IsWritableOutput }
    ensures refused { IfErr result (λ e. HasTextCause
        (vcd cycles (map string_bytes words.now)) text.now e) }
{
    let driven = driven_by(alloc, cycles, words, text)?;
    let Driven {
        pattern,
        ports,
        streams,
    } = driven;
    let made = vcd_write::of(alloc, pattern, &ports, &streams);
    drop(streams);
    drop(ports);
    let waves = made?;
    Ok(Output::Waves(waves))
}
