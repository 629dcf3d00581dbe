// Why a text gives no netlist.
ghost use Rattle.std.specs.Prelude.{◌≡◌};
ghost use Rattle.netlist_text.specs.declared.error.NetlistError.TheVariants.{NoMemory};

use blif_check::CheckError;
use blif_reader::ReadError;
use blif_text::Fault;
use clock_check::ClockError;
use lists::{List, OutOfMemory};
use netlist_core::Name;
use netlist_flatten::FlattenError;
use std::alloc::AllocError;
use std::fmt;
use thiserror::Error;

/// Why a text gives no netlist.
#[derive(Drop, Error)]
pub enum NetlistError {
    /// The fault by the first rule on lines, models or clocks that the text breaks.
    #[error("the netlist is at fault")]
    Fault(Fault),
    /// The netlist weighs more than the limit. `weight` is its weight, or the greatest u64 if it
    /// weighs more.
    #[error("the netlist is too large: it weighs {weight}")]
    TooLarge { weight: u64 },
    /// The names of the nets of a loop: a cover reads each net and drives the next, and a cover
    /// reads the last and drives the first.
    #[error("covers read each other in a circle")]
    Loop(List<Name>),
    #[error("out of memory")]
    NoMemory,
}

impl From<OutOfMemory> for NetlistError {
    ghost from_gives = { λ _ r. r ≡ NoMemory };

    fn from(_: OutOfMemory) -> Self {
        NetlistError::NoMemory
    }
}

impl From<ReadError> for NetlistError {
    ghost use Rattle.netlist_text.specs.Errors.{read_error};

    ghost from_gives = { λ e r. r ≡ read_error e };

    fn from(error: ReadError) -> Self {
        match error {
            ReadError::Fault(fault) => NetlistError::Fault(fault),
            ReadError::NoMemory => NetlistError::NoMemory,
        }
    }
}

impl From<CheckError> for NetlistError {
    ghost use Rattle.netlist_text.specs.Errors.{check_error};

    ghost from_gives = { λ e r. r ≡ check_error e };

    fn from(error: CheckError) -> Self {
        match error {
            CheckError::Fault(fault) => NetlistError::Fault(fault),
            CheckError::NoMemory => NetlistError::NoMemory,
        }
    }
}

impl From<FlattenError> for NetlistError {
    ghost use Rattle.netlist_text.specs.Errors.{flatten_error};

    ghost from_gives = { λ e r. r ≡ flatten_error e };

    fn from(error: FlattenError) -> Self {
        match error {
            FlattenError::TooLarge { weight } => NetlistError::TooLarge { weight },
            FlattenError::NoMemory => NetlistError::NoMemory,
        }
    }
}

impl From<ClockError> for NetlistError {
    ghost use Rattle.netlist_text.specs.Errors.{clock_error};

    ghost from_gives = { λ e r. r ≡ clock_error e };

    fn from(error: ClockError) -> Self {
        match error {
            ClockError::Fault(fault) => NetlistError::Fault(fault),
            ClockError::NoMemory => NetlistError::NoMemory,
        }
    }
}

impl From<AllocError> for NetlistError {
    ghost from_gives = { λ _ e. e ≡ NoMemory };

    fn from(_: AllocError) -> Self {
        NetlistError::NoMemory
    }
}

impl fmt::Debug for NetlistError {
    fn fmt<W: fmt::Write>(&self, f: &mut fmt::Formatter<W>) -> fmt::Result {
        match self {
            NetlistError::Fault(fault) => f.debug_tuple("Fault").field(fault).finish(),
            NetlistError::TooLarge { weight } => {
                f.debug_struct("TooLarge").field("weight", weight).finish()
            }
            NetlistError::Loop(_) => f.write_str("Loop"),
            NetlistError::NoMemory => f.write_str("NoMemory"),
        }
    }
}
