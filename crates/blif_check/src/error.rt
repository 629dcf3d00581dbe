// What the check answers if there is no design.
ghost use Rattle.std.specs.Prelude.{◌≡◌};
ghost use Rattle.blif_check.specs.declared.error.CheckError.TheVariants.{NoMemory};

use netlist_rules::Fault;
use std::alloc::{AllocError, AllocFailed};
use thiserror::Error;

/// Why models are no design.
#[derive(Debug, Drop, Error)]
pub enum CheckError {
    /// The fault by the rule of the lowest number that the models break, at its earliest word.
    #[error("the models of the netlist are at fault")]
    Fault(Fault),
    #[error("out of memory")]
    NoMemory,
}

impl From<AllocError> for CheckError {
    ghost from_gives = { λ _ e. e ≡ NoMemory };

    fn from(_: AllocError) -> Self {
        CheckError::NoMemory
    }
}

impl<T: Drop> From<AllocFailed<T>> for CheckError {
    ghost from_gives = { λ _ e. e ≡ NoMemory };

    fn from(_: AllocFailed<T>) -> Self {
        CheckError::NoMemory
    }
}
