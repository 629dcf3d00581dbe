// `aiger`: the pattern of a circuit.
ghost use Rattle.std.specs.Prelude.{IfOk, IfErr};
ghost use Rattle.command_words.specs.Shapes.{aiger};
ghost use Rattle.blifww_tool.specs.Answer.{output_text, IsWritableOutput};
ghost use Rattle.blifww_tool.specs.Commands.{Prints, HasTextCause};

use crate::output::Output;
use aiger_plans::plan_circuit;
use program_runs::TextError;
use std::alloc::Global;

/// Makes the pattern of the circuit whose AIGER text this is, with the lines that say where its
/// ports are.
pub fn aiger(alloc: Global, text: &[u8]) -> Result<Output, TextError>
    ensures printed { IfOk result (λ output. Prints aiger text.now (output_text output)) }
    ensures writable { IfOk result IsWritableOutput }
    ensures refused { IfErr result (λ e. HasTextCause aiger text.now e) }
{
    let circuit = aiger_reader::read(alloc, text)?;
    let made = plan_circuit(alloc, &circuit);
    drop(circuit);
    let planned = made?;
    Ok(Output::Drawing(planned))
}
