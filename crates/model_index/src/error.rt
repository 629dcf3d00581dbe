// Why there is no order of models.
ghost use Rattle.std.specs.Prelude.{◌≡◌};
ghost use Rattle.model_index.specs.declared.error.ModelOrderError.TheVariants.{NoMemory};

use std::alloc::{AllocError, AllocFailed};
use thiserror::Error;

/// Why models have no order in which each comes after those that it places.
#[derive(Clone, Copy, Debug, Error)]
pub enum ModelOrderError {
    /// Memory ran out.
    #[error("out of memory")]
    NoMemory,
    /// A model leads back to itself by subckt lines.
    #[error("a model leads back to itself")]
    Circle,
}

impl From<AllocError> for ModelOrderError {
    ghost from_gives = { λ _ e. e ≡ NoMemory };

    fn from(_: AllocError) -> Self {
        ModelOrderError::NoMemory
    }
}

impl<T: Drop> From<AllocFailed<T>> for ModelOrderError {
    ghost from_gives = { λ _ e. e ≡ NoMemory };

    fn from(_: AllocFailed<T>) -> Self {
        ModelOrderError::NoMemory
    }
}
