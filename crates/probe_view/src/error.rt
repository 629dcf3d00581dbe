// Why a net or a part of a pattern is not shown.
ghost use Rattle.std.specs.Prelude.{◌≡◌};

use drive::{DriveError, SimulateError};
use std::alloc::{AllocError, AllocFailed};
use thiserror::Error;

/// The error of `probe`: why a net's bits are not shown.
#[derive(Clone, Copy, Debug, Error)]
pub enum ProbeError {
    #[error("out of memory")]
    NoMemory,
    /// No net of the table has the name and the path. This is looked at first.
    #[error("there is no such net")]
    NoSuchNet,
    /// The run needs this number of generations, which is over the limit of 4,294,967,296.
    #[error("the run needs {generations} generations")]
    TooFar { generations: u128 },
    /// An injection of this generation is due at this cell, by its column and row, but the cell is
    /// no conductor before the injections of that generation.
    #[error("generation {generation}: cell {x} {y} is no conductor")]
    NotQuiet { generation: u64, x: u64, y: u64 },
}

/// The error of `window`: why a part of a plane is not shown.
#[derive(Clone, Copy, Debug, Error)]
pub enum WindowError {
    #[error("out of memory")]
    NoMemory,
    /// An injection of this generation is due at this cell, by its column and row, but the cell is
    /// no conductor before the injections of that generation.
    #[error("generation {generation}: cell {x} {y} is no conductor")]
    NotQuiet { generation: u64, x: u64, y: u64 },
}

ghost use Rattle.probe_view.specs.Probes.{probe_error};
ghost use Rattle.probe_view.specs.declared.error.WindowError.TheVariants as viewing;

impl From<SimulateError> for ProbeError {
    ghost from_gives = { λ simulated probed. probed ≡ probe_error simulated };

    fn from(error: SimulateError) -> Self {
        match error {
            SimulateError::NoMemory => ProbeError::NoMemory,
            SimulateError::TooFar { generations } => ProbeError::TooFar { generations },
            SimulateError::NotQuiet { generation, x, y } => ProbeError::NotQuiet {
                generation,
                x,
                y,
            },
        }
    }
}

impl From<AllocError> for WindowError {
    ghost from_gives = { λ _ e. e ≡ viewing.NoMemory };

    fn from(_: AllocError) -> Self {
        WindowError::NoMemory
    }
}

impl<T: Drop> From<AllocFailed<T>> for WindowError {
    ghost from_gives = { λ _ e. e ≡ viewing.NoMemory };

    fn from(_: AllocFailed<T>) -> Self {
        WindowError::NoMemory
    }
}

impl From<DriveError> for WindowError {
    ghost from_gives = { λ _ e. e ≡ viewing.NoMemory };

    fn from(_: DriveError) -> Self {
        WindowError::NoMemory
    }
}
