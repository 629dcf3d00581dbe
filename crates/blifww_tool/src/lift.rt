// `lift`: the netlist of the circuit that a pattern draws.
ghost use Rattle.std.specs.Prelude.{ℕ, List, IfOk, IfErr};
ghost use Rattle.ww_rule.specs.Patterns.{grid_of};
ghost use Rattle.pattern_reading.specs.Pattern.{ReadsWithinLimit};
ghost use Rattle.pattern_reading.specs.PortTable.{ReadsAsPorts};
ghost use Rattle.command_words.specs.Shapes.{lift};
ghost use Rattle.blifww_tool.specs.Answer.{output_text, IsWritableOutput};
ghost use Rattle.blifww_tool.specs.Commands.{Prints, HasTextCause};

use crate::output::Output;
use pattern_reading::Ports;
use program_runs::TextError;
use std::alloc::Global;
use ww_rule::Pattern;

// The netlist that a pattern with its port table carries, if they are the drawing of a circuit.
fn drawn(alloc: Global, pattern: &Pattern, ports: &Ports) -> Result<Output, TextError>
    ensures printed { IfOk result (λ output. (text : List ℕ)
        → ReadsWithinLimit text (grid_of pattern.now)
        → ReadsAsPorts text pattern.now.width pattern.now.height ports.now
        → Prints lift text (output_text output)) }
    ensures writable { IfOk result IsWritableOutput }
    ensures refused { IfErr result (λ e. (text : List ℕ)
        → ReadsWithinLimit text (grid_of pattern.now)
        → ReadsAsPorts text pattern.now.width pattern.now.height ports.now
        → HasTextCause lift text e) }
{
    let plan = tile_match::audit(alloc, pattern, ports)?;
    let made = blif_write::of(alloc, &plan, ports);
    drop(plan);
    let lifted = made?;
    Ok(Output::Lifted(lifted))
}

/// Makes the netlist that the text's pattern with its port table carries, if they are the drawing
/// of a circuit.
pub fn lift(alloc: Global, text: &[u8]) -> Result<Output, TextError>
    ensures printed { IfOk result (λ output. Prints lift text.now (output_text output)) }
    ensures writable { IfOk result IsWritableOutput }
    ensures refused { IfErr result (λ e. HasTextCause lift text.now e) }
{
    let pattern = rle_read::read(alloc, text)?;
    let ports = port_table::read(alloc, text, pattern.width, pattern.height)?;
    let output = drawn(alloc, &pattern, &ports);
    drop(ports);
    drop(pattern);
    output
}
