// Why numbers have no order.
ghost use Rattle.std.specs.Prelude.{◌≡◌};
ghost use Rattle.depth_walk.specs.declared.error.WalkError.TheVariants.{NoMemory};

use lists::List;
use std::alloc::{AllocError, AllocFailed};
use std::fmt;
use thiserror::Error;

/// The reasons for which numbers have no order.
#[derive(Drop, Error)]
pub enum WalkError {
    /// Memory ran out.
    #[error("out of memory")]
    NoMemory,
    /// A circle: each of these numbers leads to the next, and the last leads to the first.
    #[error("a number leads back to itself")]
    Circle(List<usize>),
}

impl From<AllocError> for WalkError {
    ghost from_gives = { λ _ e. e ≡ NoMemory };

    fn from(_: AllocError) -> Self {
        WalkError::NoMemory
    }
}

impl<T: Drop> From<AllocFailed<T>> for WalkError {
    ghost from_gives = { λ _ e. e ≡ NoMemory };

    fn from(_: AllocFailed<T>) -> Self {
        WalkError::NoMemory
    }
}

impl fmt::Debug for WalkError {
    fn fmt<W: fmt::Write>(&self, f: &mut fmt::Formatter<W>) -> fmt::Result {
        match self {
            WalkError::NoMemory => f.write_str("NoMemory"),
            WalkError::Circle(_) => f.write_str("Circle"),
        }
    }
}
