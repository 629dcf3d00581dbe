// What the check answers if a netlist breaks a rule on clocks.
ghost use Rattle.std.specs.Prelude.{◌≡◌};
ghost use Rattle.netlist_rules.specs.FaultNames.{fault_on};
ghost use Rattle.clock_check.specs.declared.error.ClockError.TheVariants.{NoMemory};

use lists::Bytes;
use netlist_rules::{Fault, FaultKind};
use std::alloc::{AllocError, AllocFailed};
use thiserror::Error;

/// Why a flat netlist does not pass the check of its clocks.
#[derive(Debug, Drop, Error)]
pub enum ClockError {
    /// The fault of latches with two clocks or, if there is none, of the earliest use of a clock
    /// net.
    #[error("a clock of the netlist is at fault")]
    Fault(Fault),
    #[error("out of memory")]
    NoMemory,
}

impl ClockError {
    /// Makes the error for a fault on a line, at a word.
    pub fn at_word(kind: FaultKind, line: u64, word: Bytes) -> ClockError
        ensures { result ≡ ClockError.Fault (fault_on kind line word) }
    {
        ClockError::Fault(Fault { kind, line, word })
    }
}

impl From<AllocError> for ClockError {
    ghost from_gives = { λ _ e. e ≡ NoMemory };

    fn from(_: AllocError) -> Self {
        ClockError::NoMemory
    }
}

impl<T: Drop> From<AllocFailed<T>> for ClockError {
    ghost from_gives = { λ _ e. e ≡ NoMemory };

    fn from(_: AllocFailed<T>) -> Self {
        ClockError::NoMemory
    }
}
