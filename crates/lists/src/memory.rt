// The error of calls that can fail only when memory runs out.
ghost use Rattle.std.specs.Prelude.{◌≡◌};
ghost use Rattle.lists.specs.declared.memory.OutOfMemory.TheVariants.{NoMemory};

use std::alloc::{AllocError, AllocFailed};
use thiserror::Error;

/// The error of a call that can fail only when memory runs out. Crates export it under names of
/// their own.
#[derive(Clone, Copy, Debug, Error)]
pub enum OutOfMemory {
    #[error("out of memory")]
    NoMemory,
}

impl From<AllocError> for OutOfMemory {
    ghost from_gives = { λ _ e. e ≡ NoMemory };

    fn from(_: AllocError) -> Self {
        OutOfMemory::NoMemory
    }
}

impl<T: Drop> From<AllocFailed<T>> for OutOfMemory {
    ghost from_gives = { λ _ e. e ≡ NoMemory };

    fn from(_: AllocFailed<T>) -> Self {
        OutOfMemory::NoMemory
    }
}
