// `make`: the text of a netlist that is made from a seed.
ghost use Rattle.std.specs.Prelude.{◌≡◌, IfOk, IfErr};
ghost use Rattle.made_netlists.specs.Text.{made_text};
ghost use Rattle.command_words.specs.Shapes.{make, HasNumbersInRange};
ghost use Rattle.blifww_tool.specs.Answer.{output_text, IsWritableOutput};
ghost use Rattle.program_runs.specs.declared.causes.TextError.TheVariants.{NoMemory};

use crate::output::Output;
use program_runs::TextError;
use std::alloc::Global;

/// Makes the text of the netlist of a seed and a number of gates. It reads nothing.
pub fn make(alloc: Global, seed: u32, size: u32) -> Result<Output, TextError>
    requires numbers { HasNumbersInRange (make seed size) }
    ensures printed { IfOk result (λ output. output_text output ≡ made_text seed size) }
    ensures writable { IfOk result IsWritableOutput }
    ensures refused { IfErr result (λ e. e ≡ NoMemory) }
{
    let made = made_netlists::make(alloc, seed, size)?;
    Ok(Output::Lines(made.text))
}
