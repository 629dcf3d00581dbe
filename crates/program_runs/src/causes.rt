// Why a text gives no output.
ghost use Rattle.std.specs.Prelude.{◌≡◌};

use aiger_meaning::LowerError;
use aiger_reader::AigReadError;
use aiger_text::AigFault;
use blif_text::Fault;
use drive::{SimulateError, StreamError, StreamFault};
use lists::{List, OutOfMemory};
use netlist_core::Name;
use netlist_text::NetlistError;
use port_table::{PortFault, PortReadError};
use probe_view::WindowError;
use rle_read::{RleFault, RleReadError};
use start_words::{StartError, StartFault};
use std::alloc::AllocError;
use std::fmt;
use thiserror::Error;
use tile_match::{AuditError, CircuitFault};

/// Why a command refuses a text.
#[derive(Drop)]
pub enum Cause {
    /// The netlist's text breaks a rule.
    NetlistFault(Fault),
    /// The netlist, or the circuit, weighs more than the limit.
    WeightTooLarge { weight: u64 },
    /// Covers read each other in a circle; these are the names of the circle's nets.
    Loop(List<Name>),
    /// The circuit's text breaks a rule.
    AigAtFault(AigFault),
    /// AND gates read each other in a circle; these are the literals of their left sides.
    AigLoop(List<u64>),
    /// The text is no pattern.
    Pattern(RleFault),
    /// The pattern's box has more cells than are read.
    GridTooLarge { width: u64, height: u64 },
    /// The pattern's port table has this fault.
    PortTable(PortFault),
    /// The words are no streams for the inputs.
    Streams(StreamFault),
    /// The words are no starts for the latches.
    StartWord(StartFault),
    /// No net of the pattern's port table has this name and the path that is asked for.
    NoSuchNet(Name),
    /// The simulation needs this number of generations, which is over the limit.
    TooFar { generations: u128 },
    /// More contexts are asked for than the `limit` for which the plan has room.
    TooManyContexts { contexts: u64, limit: u64 },
    /// An injection is due at this generation and cell, but the cell is no conductor before the
    /// injections of that generation.
    NotQuiet { generation: u64, x: u64, y: u64 },
    /// The pattern with its port table is no circuit.
    NotCircuit(CircuitFault),
}

impl Cause {
    ghost use Rattle.program_runs.specs.Refusals.{status_of_cause};

    /// Returns the exit status.
    pub fn status(&self) -> u8
        ensures { result ≡ status_of_cause self.now }
    {
        match self {
            Cause::NetlistFault(_) | Cause::AigAtFault(_) => 1,
            Cause::Loop(_) | Cause::AigLoop(_) => 3,
            Cause::WeightTooLarge { .. }
            | Cause::GridTooLarge { .. }
            | Cause::TooFar { .. }
            | Cause::TooManyContexts { .. } => 4,
            Cause::Pattern(_) | Cause::PortTable(_) => 8,
            Cause::Streams(_) | Cause::StartWord(_) | Cause::NoSuchNet(_) => 9,
            Cause::NotQuiet { .. } => 10,
            Cause::NotCircuit(_) => 12,
        }
    }
}

/// Why a text gives no output: a command refuses it, or memory ran out.
#[derive(Drop, Error)]
pub enum TextError {
    #[error("the text is refused")]
    Refused(Cause),
    #[error("out of memory")]
    NoMemory,
}

impl fmt::Debug for TextError {
    fn fmt<W: fmt::Write>(&self, f: &mut fmt::Formatter<W>) -> fmt::Result {
        match self {
            TextError::Refused(cause) => f.debug_tuple("Refused").field(&cause.status()).finish(),
            TextError::NoMemory => f.write_str("NoMemory"),
        }
    }
}

impl From<NetlistError> for TextError {
    ghost use Rattle.program_runs.specs.Refusals.{netlist_error};

    ghost from_gives = { λ e r. r ≡ netlist_error e };

    fn from(error: NetlistError) -> Self {
        match error {
            NetlistError::Fault(fault) => TextError::Refused(Cause::NetlistFault(fault)),
            NetlistError::TooLarge { weight } => {
                TextError::Refused(Cause::WeightTooLarge { weight })
            }
            NetlistError::Loop(names) => TextError::Refused(Cause::Loop(names)),
            NetlistError::NoMemory => TextError::NoMemory,
        }
    }
}

impl From<AigReadError> for TextError {
    ghost use Rattle.program_runs.specs.Refusals.{aig_error};

    ghost from_gives = { λ e r. r ≡ aig_error e };

    fn from(error: AigReadError) -> Self {
        match error {
            AigReadError::Fault(fault) => TextError::Refused(Cause::AigAtFault(fault)),
            AigReadError::NoMemory => TextError::NoMemory,
        }
    }
}

impl From<LowerError> for TextError {
    ghost use Rattle.program_runs.specs.Refusals.{lower_error};

    ghost from_gives = { λ e r. r ≡ lower_error e };

    fn from(error: LowerError) -> Self {
        match error {
            LowerError::TooLarge { weight } => {
                TextError::Refused(Cause::WeightTooLarge { weight })
            }
            LowerError::Loop(literals) => TextError::Refused(Cause::AigLoop(literals)),
            LowerError::NoMemory => TextError::NoMemory,
        }
    }
}

impl From<OutOfMemory> for TextError {
    ghost use Rattle.program_runs.specs.declared.causes.TextError.TheVariants.{NoMemory};

    ghost from_gives = { λ _ r. r ≡ NoMemory };

    fn from(_: OutOfMemory) -> Self {
        TextError::NoMemory
    }
}

impl From<RleReadError> for TextError {
    ghost use Rattle.program_runs.specs.Refusals.{pattern_error};

    ghost from_gives = { λ e r. r ≡ pattern_error e };

    fn from(error: RleReadError) -> Self {
        match error {
            RleReadError::Fault(fault) => TextError::Refused(Cause::Pattern(fault)),
            RleReadError::TooLarge { width, height } => {
                TextError::Refused(Cause::GridTooLarge { width, height })
            }
            RleReadError::NoMemory => TextError::NoMemory,
        }
    }
}

impl From<PortReadError> for TextError {
    ghost use Rattle.program_runs.specs.Refusals.{table_error};

    ghost from_gives = { λ e r. r ≡ table_error e };

    fn from(error: PortReadError) -> Self {
        match error {
            PortReadError::Fault(fault) => TextError::Refused(Cause::PortTable(fault)),
            PortReadError::NoMemory => TextError::NoMemory,
        }
    }
}

impl From<StreamError> for TextError {
    ghost use Rattle.program_runs.specs.Refusals.{streams_error};

    ghost from_gives = { λ e r. r ≡ streams_error e };

    fn from(error: StreamError) -> Self {
        match error {
            StreamError::Fault(fault) => TextError::Refused(Cause::Streams(fault)),
            StreamError::NoMemory => TextError::NoMemory,
        }
    }
}

impl From<StartError> for TextError {
    ghost use Rattle.program_runs.specs.Refusals.{starts_error};

    ghost from_gives = { λ e r. r ≡ starts_error e };

    fn from(error: StartError) -> Self {
        match error {
            StartError::Fault(fault) => TextError::Refused(Cause::StartWord(fault)),
            StartError::NoMemory => TextError::NoMemory,
        }
    }
}

impl From<SimulateError> for TextError {
    ghost use Rattle.program_runs.specs.Refusals.{simulate_error};

    ghost from_gives = { λ e r. r ≡ simulate_error e };

    fn from(error: SimulateError) -> Self {
        match error {
            SimulateError::TooFar { generations } => {
                TextError::Refused(Cause::TooFar { generations })
            }
            SimulateError::NotQuiet { generation, x, y } => {
                TextError::Refused(Cause::NotQuiet { generation, x, y })
            }
            SimulateError::NoMemory => TextError::NoMemory,
        }
    }
}

impl From<WindowError> for TextError {
    ghost use Rattle.program_runs.specs.Refusals.{window_error};

    ghost from_gives = { λ e r. r ≡ window_error e };

    fn from(error: WindowError) -> Self {
        match error {
            WindowError::NotQuiet { generation, x, y } => {
                TextError::Refused(Cause::NotQuiet { generation, x, y })
            }
            WindowError::NoMemory => TextError::NoMemory,
        }
    }
}

impl From<AuditError> for TextError {
    ghost use Rattle.program_runs.specs.Refusals.{audit_error};

    ghost from_gives = { λ e r. r ≡ audit_error e };

    fn from(error: AuditError) -> Self {
        match error {
            AuditError::NotCircuit(fault) => TextError::Refused(Cause::NotCircuit(fault)),
            AuditError::NoMemory => TextError::NoMemory,
        }
    }
}

impl From<AllocError> for TextError {
    ghost use Rattle.program_runs.specs.declared.causes.TextError.TheVariants.{NoMemory};

    ghost from_gives = { λ _ r. r ≡ NoMemory };

    fn from(_: AllocError) -> Self {
        TextError::NoMemory
    }
}
