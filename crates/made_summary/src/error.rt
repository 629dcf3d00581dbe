// The error of a summary.
ghost use Rattle.std.specs.Prelude.{◌≡◌};
ghost use Rattle.made_summary.specs.declared.error.SummaryError.TheVariants.{NoMemory};

use lists::OutOfMemory;
use std::alloc::AllocError;
use thiserror::Error;

/// The error of `summarize`: why there is no summary.
#[derive(Clone, Copy, Debug, Error)]
pub enum SummaryError {
    /// The last bits are shown at this generation, which is over the limit of 4,294,967,296.
    #[error("the last bits are shown at generation {generations}")]
    TooFar { generations: u128 },
    #[error("out of memory")]
    NoMemory,
}

impl From<AllocError> for SummaryError {
    ghost from_gives = { λ _ e. e ≡ NoMemory };

    fn from(_: AllocError) -> Self {
        SummaryError::NoMemory
    }
}

impl From<OutOfMemory> for SummaryError {
    ghost from_gives = { λ _ e. e ≡ NoMemory };

    fn from(_: OutOfMemory) -> Self {
        SummaryError::NoMemory
    }
}
