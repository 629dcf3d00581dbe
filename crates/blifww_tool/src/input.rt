// What a command reads.
ghost use Rattle.std.specs.Prelude.{◌≡◌, ◌<◌, true, false, List, ℕ, length, IfOk, OnErr, IsErrOf};
ghost use Rattle.command_words.specs.Shapes.{values_of};
ghost use Rattle.blifww_tool.specs.Commands.{reads_text};
ghost use Rattle.blifww_tool.specs.Run.{HasText};
ghost use Rattle.program_runs.specs.Runs.{reading, Gave, NoReadFailed, ReadFailed, text_limit};

use command_words::Command;
use lists::Bytes;
use std::alloc::Global;
use ww_base::{ReadAllError, Source, read_all};

// The greatest number of bytes that are read.
const TEXT_LIMIT: usize = 16_777_216;

// Whether the command reads a text.
fn reads_text(command: &Command) -> bool
    ensures { result ≡ reads_text (values_of command.now) }
{
    match command {
        Command::Compile { .. }
        | Command::Simulate { .. }
        | Command::Eval { .. }
        | Command::Probe { .. }
        | Command::Window { .. }
        | Command::Tape { .. }
        | Command::Aiger
        | Command::Vcd { .. }
        | Command::Lift => true,
        Command::Make { .. } | Command::Self_ { .. } => false,
    }
}

/// Returns all that the source has left, or the empty text for a command that reads nothing.
pub fn text_for<S: Source>(
    alloc: Global,
    command: &Command,
    src: &mut S,
) -> Result<Bytes, ReadAllError>
    ensures given { IfOk result (λ text.
        HasText (values_of command.now) (reading S.left S.faults src.old src.new) text) }
    ensures read { OnErr result (reads_text (values_of command.now) ≡ true) }
    ensures calm { (IsErrOf result ReadAllError.ReadFault → ⊥) →
        NoReadFailed (reading S.left S.faults src.old src.new) }
    ensures fault { IsErrOf result ReadAllError.ReadFault →
        ReadFailed (reading S.left S.faults src.old src.new) }
    ensures too_long { IsErrOf result ReadAllError.TooLong →
        (given : List ℕ) × Gave (reading S.left S.faults src.old src.new) given ×
        (text_limit < length given) }
    ensures front { (given : List ℕ) × Gave (reading S.left S.faults src.old src.new) given }
    ensures unread { reads_text (values_of command.now) ≡ false → src.new ≡ src.old }
{
    if reads_text(command) {
        read_all(alloc, src, TEXT_LIMIT)
    } else {
        Ok(Bytes::of(Vec::new(alloc)))
    }
}
