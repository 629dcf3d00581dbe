// The error of `lower`.
ghost use Rattle.std.specs.Prelude.{◌≡◌};
ghost use Rattle.aiger_meaning.specs.declared.error.LowerError.TheVariants.{NoMemory};

use lists::List;
use std::alloc::AllocError;
use std::fmt;
use thiserror::Error;

/// The error of `lower`: why there is no flat netlist of a circuit.
#[derive(Drop, Error)]
pub enum LowerError {
    /// The circuit weighs more than the limit.
    #[error("the circuit is too large: it weighs {weight}")]
    TooLarge { weight: u64 },
    /// Gates read each other in a circle. These are their left sides, each once: each is read by
    /// the gate of the next, and the last by the gate of the first.
    #[error("gates read each other in a circle")]
    Loop(List<u64>),
    /// Memory ran out.
    #[error("out of memory")]
    NoMemory,
}

impl From<AllocError> for LowerError {
    ghost from_gives = { λ _ e. e ≡ NoMemory };

    fn from(_: AllocError) -> Self {
        LowerError::NoMemory
    }
}

impl fmt::Debug for LowerError {
    fn fmt<W: fmt::Write>(&self, f: &mut fmt::Formatter<W>) -> fmt::Result {
        f.write_str(match self {
            LowerError::TooLarge { .. } => "TooLarge",
            LowerError::Loop(_) => "Loop",
            LowerError::NoMemory => "NoMemory",
        })
    }
}
