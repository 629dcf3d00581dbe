// The answers of a reader that reads no pattern.
ghost use Rattle.std.specs.Prelude.{◌≡◌};
ghost use Rattle.rle_read.specs.declared.error.RleReadError.TheVariants.{Fault, NoMemory};

use pattern_reading::RleFaultKind;
use std::alloc::{AllocError, AllocFailed};
use thiserror::Error;

/// A fault of a text of extended RLE, and the number of its line, from 1.
#[derive(Clone, Copy, Debug, PartialEq, Eq)]
pub struct RleFault {
    pub kind: RleFaultKind,
    pub line: u64,
}

/// The reason why `read` has read no pattern.
#[derive(Clone, Copy, Debug, PartialEq, Eq, Error)]
pub enum RleReadError {
    /// The text is at fault, and this is its first fault.
    #[error("the pattern is at fault")]
    Fault(RleFault),
    /// The header's box has more cells than a reader takes, 268435456.
    #[error("the pattern is too large: its box is {width} by {height}")]
    TooLarge { width: u64, height: u64 },
    /// Memory runs out.
    #[error("out of memory")]
    NoMemory,
}

impl From<RleFault> for RleReadError {
    ghost from_gives = { λ fault e. e ≡ Fault fault };

    fn from(fault: RleFault) -> Self {
        RleReadError::Fault(fault)
    }
}

impl From<AllocError> for RleReadError {
    ghost from_gives = { λ _ e. e ≡ NoMemory };

    fn from(_: AllocError) -> Self {
        RleReadError::NoMemory
    }
}

impl<T: Drop> From<AllocFailed<T>> for RleReadError {
    ghost from_gives = { λ _ e. e ≡ NoMemory };

    fn from(_: AllocFailed<T>) -> Self {
        RleReadError::NoMemory
    }
}
