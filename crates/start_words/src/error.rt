// The error of `Starts::read`.
ghost use Rattle.std.specs.Prelude.{◌≡◌};
ghost use Rattle.start_words.specs.declared.error.StartError.TheVariants.{NoMemory};

use lists::Bytes;
use std::alloc::{AllocError, AllocFailed};
use std::fmt;
use thiserror::Error;

/// The faults of start words, by the names that the program prints. The first word at fault is
/// reported, with the first of these faults that it has.
#[derive(Clone, Copy, Debug, PartialEq, Eq)]
pub enum StartFaultKind {
    /// The word has no `=`.
    NoEquals,
    /// There is no `:` before the last `=`, or no number of a context before the first `:`.
    BadContext,
    /// What stands between the first `:` and the last `=` is no net of the main model that is
    /// joined with a latch's output.
    NoSuchLatch,
    /// An earlier word sets this latch in this context.
    TwiceLatch,
    /// What stands after the last `=` is not the one character `0` or `1`.
    BadBit,
}

/// A fault, and the word at fault.
#[derive(Drop)]
pub struct StartFault {
    pub kind: StartFaultKind,
    pub word: Bytes,
}

/// The error of `Starts::read`: why no starts were read.
#[derive(Drop, Error)]
pub enum StartError {
    /// Memory ran out.
    #[error("out of memory")]
    NoMemory,
    /// The words have this fault.
    #[error("the words are at fault")]
    Fault(StartFault),
}

impl From<AllocError> for StartError {
    ghost from_gives = { λ _ e. e ≡ NoMemory };

    fn from(_: AllocError) -> Self {
        StartError::NoMemory
    }
}

impl<T: Drop> From<AllocFailed<T>> for StartError {
    ghost from_gives = { λ _ e. e ≡ NoMemory };

    fn from(_: AllocFailed<T>) -> Self {
        StartError::NoMemory
    }
}

impl fmt::Debug for StartError {
    fn fmt<W: fmt::Write>(&self, f: &mut fmt::Formatter<W>) -> fmt::Result {
        match self {
            StartError::NoMemory => f.write_str("NoMemory"),
            StartError::Fault(fault) => f.debug_tuple("Fault").field(&fault.kind).finish(),
        }
    }
}
