// The error of the audit.
ghost use Rattle.std.specs.Prelude.{◌≡◌};
ghost use Rattle.tile_match.specs.declared.error.AuditError.TheVariants.{NoMemory};

use std::alloc::AllocError;
use thiserror::Error;

/// Why a pattern with a port table is no circuit: the first kind that applies.
#[derive(Clone, Copy, Debug)]
pub enum CircuitFault {
    /// No circuit's plan has the pattern's box and the table's period, latency and port cells, or
    /// the table is that of several contexts.
    Ports,
    /// A name cannot stand in a netlist's text, or an input and an output share it.
    Names,
    /// No plan with that box and these ports draws the pattern.
    Cells,
}

/// The error of `audit`: why there is no plan.
#[derive(Clone, Copy, Debug, Error)]
pub enum AuditError {
    #[error("not a circuit")]
    NotCircuit(CircuitFault),
    #[error("out of memory")]
    NoMemory,
}

impl From<AllocError> for AuditError {
    ghost from_gives = { λ _ e. e ≡ NoMemory };

    fn from(_: AllocError) -> Self {
        AuditError::NoMemory
    }
}
