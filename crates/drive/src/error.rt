// The error of a run.
ghost use Rattle.std.specs.Prelude.{◌≡◌, ◌<◌, ◌^◌};

use crate::DriveError;
use std::alloc::{AllocError, AllocFailed};
use thiserror::Error;
use ww_rule::Injection;

/// The error of `simulate` and `bits_of_cells`: why a pattern was not run.
#[derive(Clone, Copy, Debug, Error)]
pub enum SimulateError {
    /// Memory ran out.
    #[error("out of memory")]
    NoMemory,
    /// The run needs this number of generations, which is over the limit of 4,294,967,296.
    #[error("the run needs {generations} generations")]
    TooFar { generations: u128 },
    /// An injection is due at this generation at this cell, by its column and row, but the cell is
    /// no conductor before the injections of that generation.
    #[error("generation {generation}: cell {x} {y} is no conductor")]
    NotQuiet { generation: u64, x: u64, y: u64 },
}

ghost use Rattle.drive.specs.declared.error.SimulateError.TheVariants as simulating;

impl From<AllocError> for SimulateError {
    ghost from_gives = { λ _ e. e ≡ simulating.NoMemory };

    fn from(_: AllocError) -> Self {
        SimulateError::NoMemory
    }
}

impl<T: Drop> From<AllocFailed<T>> for SimulateError {
    ghost from_gives = { λ _ e. e ≡ simulating.NoMemory };

    fn from(_: AllocFailed<T>) -> Self {
        SimulateError::NoMemory
    }
}

impl From<DriveError> for SimulateError {
    ghost from_gives = { λ _ e. e ≡ simulating.NoMemory };

    fn from(_: DriveError) -> Self {
        SimulateError::NoMemory
    }
}

impl SimulateError {
    /// Returns the error for an injection whose cell is no conductor.
    pub fn not_quiet(injection: Injection) -> SimulateError
        requires { injection.generation < 2 ^ 64 }
        ensures { result ≡ simulating.NotQuiet injection.generation injection.x injection.y }
    {
        let Injection { generation, x, y } = injection;
        SimulateError::NotQuiet {
            generation: generation as u64,
            x,
            y,
        }
    }
}
