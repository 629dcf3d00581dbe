// Why a run does not end well, with its status.
ghost use Rattle.std.specs.Prelude.{◌≡◌};

use crate::causes::{Cause, TextError};
use command_words::WordsError;
use ww_base::{Failed, ReadAllError};

/// Why a run does not end well.
#[derive(Drop)]
pub enum Refusal {
    Usage,
    TooLong,
    ReadFault,
    WriteFault,
    NoMemory,
    /// The command refuses the text.
    Text(Cause),
}

impl From<WordsError> for Refusal {
    ghost use Rattle.program_runs.specs.Refusals.{words_refusal};

    ghost from_gives = { λ e r. r ≡ words_refusal e };

    fn from(error: WordsError) -> Self {
        match error {
            WordsError::Usage => Refusal::Usage,
            WordsError::NoMemory => Refusal::NoMemory,
        }
    }
}

impl From<ReadAllError> for Refusal {
    ghost use Rattle.program_runs.specs.Refusals.{read_refusal};

    ghost from_gives = { λ e r. r ≡ read_refusal e };

    fn from(error: ReadAllError) -> Self {
        match error {
            ReadAllError::ReadFault => Refusal::ReadFault,
            ReadAllError::TooLong => Refusal::TooLong,
            ReadAllError::NoMemory => Refusal::NoMemory,
        }
    }
}

impl From<TextError> for Refusal {
    ghost use Rattle.program_runs.specs.Refusals.{text_refusal};

    ghost from_gives = { λ e r. r ≡ text_refusal e };

    fn from(error: TextError) -> Self {
        match error {
            TextError::Refused(cause) => Refusal::Text(cause),
            TextError::NoMemory => Refusal::NoMemory,
        }
    }
}

impl From<Failed> for Refusal {
    ghost use Rattle.program_runs.specs.declared.refusal.Refusal.TheVariants.{WriteFault};

    ghost from_gives = { λ _ r. r ≡ WriteFault };

    fn from(_: Failed) -> Self {
        Refusal::WriteFault
    }
}

impl Refusal {
    ghost use Rattle.program_runs.specs.Refusals.{status_of};

    /// Returns the exit status.
    pub fn status(&self) -> u8
        ensures { result ≡ status_of self.now }
    {
        match self {
            Refusal::Usage => 2,
            Refusal::TooLong => 4,
            Refusal::ReadFault => 5,
            Refusal::WriteFault => 6,
            Refusal::NoMemory => 7,
            Refusal::Text(cause) => cause.status(),
        }
    }
}
