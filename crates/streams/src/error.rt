// The error of `Streams::read`.
ghost use Rattle.std.specs.Prelude.{◌≡◌};

use lists::Bytes;
use std::alloc::{AllocError, AllocFailed};
use std::fmt;
use thiserror::Error;

/// The faults of stream words, by the names that the program prints. The first word at fault is
/// reported, with the first of these faults that it has. `MissingInput` comes if no word is at
/// fault.
#[derive(Clone, Copy, Debug, PartialEq, Eq)]
pub enum StreamFaultKind {
    /// The word has no `=`.
    NoEquals,
    /// There are several contexts, or none, and the word does not begin with the number of a
    /// context, in decimal digits without leading zeros, and a `:` before its last `=`.
    BadContext,
    /// What stands before the last `=`, after the number of a context if there are several, is no
    /// input's name.
    UnknownInput,
    /// An earlier word is for the same input in the same context.
    TwiceInput,
    /// A character after the last `=` is neither `0` nor `1`.
    BadBit,
    /// The number of bits is not the number of cycles.
    BadLength,
    /// No word is for this input in this context.
    MissingInput,
}

/// A fault, with the word at fault or the name of the missing input. With several contexts this
/// name is given as `1:a`.
#[derive(Drop)]
pub struct StreamFault {
    pub kind: StreamFaultKind,
    pub word: Bytes,
}

/// The error of `Streams::read`: why no streams were read.
#[derive(Drop, Error)]
pub enum StreamError {
    /// Memory ran out.
    #[error("out of memory")]
    NoMemory,
    /// The words have this fault.
    #[error("the words are at fault")]
    Fault(StreamFault),
}

ghost use Rattle.streams.specs.declared.error.StreamError.TheVariants.{NoMemory};

impl From<AllocError> for StreamError {
    ghost from_gives = { λ _ e. e ≡ NoMemory };

    fn from(_: AllocError) -> Self {
        StreamError::NoMemory
    }
}

impl<T: Drop> From<AllocFailed<T>> for StreamError {
    ghost from_gives = { λ _ e. e ≡ NoMemory };

    fn from(_: AllocFailed<T>) -> Self {
        StreamError::NoMemory
    }
}

impl fmt::Debug for StreamError {
    fn fmt<W: fmt::Write>(&self, f: &mut fmt::Formatter<W>) -> fmt::Result {
        match self {
            StreamError::NoMemory => f.write_str("NoMemory"),
            StreamError::Fault(fault) => f.debug_tuple("Fault").field(&fault.kind).finish(),
        }
    }
}
