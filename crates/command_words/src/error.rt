// Why words are refused.
ghost use Rattle.std.specs.Prelude.{◌≡◌};

use clap::error::ErrorKind;
use std::alloc::AllocError;
use thiserror::Error;

/// The error of `command_of`: why the words of a command line give no command.
#[derive(Clone, Copy, Debug, Error)]
pub enum WordsError {
    /// The words are no command, or a number is out of its range.
    #[error("the words are no command")]
    Usage,
    #[error("out of memory")]
    NoMemory,
}

impl From<AllocError> for WordsError {
    ghost use Rattle.command_words.specs.declared.error.WordsError.TheVariants.{NoMemory};

    ghost from_gives = { λ _ e. e ≡ NoMemory };

    fn from(_: AllocError) -> Self {
        WordsError::NoMemory
    }
}

impl From<clap::Error> for WordsError {
    ghost use Rattle.command_words.specs.Errors.{error_of};

    ghost from_gives = { λ e r. r ≡ error_of e };

    fn from(error: clap::Error) -> Self {
        match error.kind() {
            ErrorKind::OutOfMemory => WordsError::NoMemory,
            _ => WordsError::Usage,
        }
    }
}
