// What `flatten` answers if it makes no flat netlist.
ghost use Rattle.std.specs.Prelude.{◌≡◌};
ghost use Rattle.netlist_flatten.specs.declared.error.FlattenError.TheVariants.{NoMemory};

use std::alloc::AllocError;
use thiserror::Error;

/// Why a design was not flattened.
#[derive(Clone, Copy, Debug, Error)]
pub enum FlattenError {
    /// The design weighs more than the greatest weight that is flattened. `weight` is its weight,
    /// or the greatest u64 if it weighs more.
    #[error("the netlist is too large: it weighs {weight}")]
    TooLarge { weight: u64 },
    #[error("out of memory")]
    NoMemory,
}

impl From<AllocError> for FlattenError {
    ghost from_gives = { λ _ e. e ≡ NoMemory };

    fn from(_: AllocError) -> Self {
        FlattenError::NoMemory
    }
}
