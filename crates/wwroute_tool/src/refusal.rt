// Why a run does not end well, with its status and its line.
ghost use Rattle.std.specs.Prelude.{◌≡◌, ℕ, take, OnOk, OnErr};
ghost use Rattle.std.specs.Io.KnownBytes.{Appends};
ghost use Rattle.ww_base.specs.Faults.{HasCause};
ghost use Rattle.program_runs.specs.Tells.{Tells};
ghost use Rattle.wwroute_tool.specs.Refusing.{cell_fault_line, fault_word};

use itoa::Buffer;
use lists::OutOfMemory;
use netlist_text::NetlistError;
use port_table::PortReadError;
use program_runs::{Cause, Refusal, TextError};
use rle_read::RleReadError;
use route_tables::{CellFault, FaultWord};
use ww_base::{Failed, ReadAllError, Sink, write_all, write_pieces};

/// Why a run does not end well: the words are no command, the pattern is no routed circuit, or what
/// other programs of the repository tell alike, as that a text is no netlist.
#[derive(Drop)]
pub enum RouteRefusal {
    Usage,
    NotCircuit(CellFault),
    Common(Refusal),
}

impl From<NetlistError> for RouteRefusal {
    ghost use Rattle.program_runs.specs.Refusals.{netlist_error, text_refusal};
    ghost use Rattle.wwroute_tool.specs.declared.refusal.RouteRefusal.TheVariants.{Common};

    ghost from_gives = { λ e r. r ≡ Common (text_refusal (netlist_error e)) };

    fn from(error: NetlistError) -> Self {
        RouteRefusal::Common(Refusal::from(TextError::from(error)))
    }
}

impl From<RleReadError> for RouteRefusal {
    ghost use Rattle.program_runs.specs.Refusals.{pattern_error, text_refusal};
    ghost use Rattle.wwroute_tool.specs.declared.refusal.RouteRefusal.TheVariants.{Common};

    ghost from_gives = { λ e r. r ≡ Common (text_refusal (pattern_error e)) };

    fn from(error: RleReadError) -> Self {
        RouteRefusal::Common(Refusal::from(TextError::from(error)))
    }
}

impl From<PortReadError> for RouteRefusal {
    ghost use Rattle.program_runs.specs.Refusals.{table_error, text_refusal};
    ghost use Rattle.wwroute_tool.specs.declared.refusal.RouteRefusal.TheVariants.{Common};

    ghost from_gives = { λ e r. r ≡ Common (text_refusal (table_error e)) };

    fn from(error: PortReadError) -> Self {
        RouteRefusal::Common(Refusal::from(TextError::from(error)))
    }
}

impl From<OutOfMemory> for RouteRefusal {
    ghost use Rattle.program_runs.specs.declared.refusal.Refusal.TheVariants.{NoMemory};
    ghost use Rattle.wwroute_tool.specs.declared.refusal.RouteRefusal.TheVariants.{Common};

    ghost from_gives = { λ _ r. r ≡ Common NoMemory };

    fn from(_: OutOfMemory) -> Self {
        RouteRefusal::Common(Refusal::NoMemory)
    }
}

impl From<ReadAllError> for RouteRefusal {
    ghost use Rattle.program_runs.specs.Refusals.{read_refusal};
    ghost use Rattle.wwroute_tool.specs.declared.refusal.RouteRefusal.TheVariants.{Common};

    ghost from_gives = { λ e r. r ≡ Common (read_refusal e) };

    fn from(error: ReadAllError) -> Self {
        RouteRefusal::Common(Refusal::from(error))
    }
}

impl From<Failed> for RouteRefusal {
    ghost use Rattle.program_runs.specs.declared.refusal.Refusal.TheVariants.{WriteFault};
    ghost use Rattle.wwroute_tool.specs.declared.refusal.RouteRefusal.TheVariants.{Common};

    ghost from_gives = { λ _ r. r ≡ Common WriteFault };

    fn from(_: Failed) -> Self {
        RouteRefusal::Common(Refusal::WriteFault)
    }
}

// The word for what is wrong.
fn fault_word(word: FaultWord) -> &'static [u8]
    ensures { result.now ≡ fault_word word }
{
    match word {
        FaultWord::Kind => b"Kind",
        FaultWord::Gate => b"Gate",
        FaultWord::Touches => b"Touches",
        FaultWord::Wire => b"Wire",
        FaultWord::Length => b"Length",
        FaultWord::Electron => b"Electron",
        FaultWord::Fed => b"Fed",
        FaultWord::Order => b"Order",
        FaultWord::Port => b"Port",
        FaultWord::Net => b"Net",
    }
}

// Tells what is wrong, and a cell near it.
fn tell_fault<E: Sink>(err: &mut E, fault: CellFault) -> Result<(), Failed>
    ensures { Tells (cell_fault_line fault)
        (E.written err.old) (E.written err.new) (E.faults err.old) (E.faults err.new) result }
{
    let mut columns = Buffer::new();
    let mut rows = Buffer::new();
    let x = columns.format(fault.x).as_bytes();
    let y = rows.format(fault.y).as_bytes();
    write_pieces(
        err,
        &[
            b"not a circuit: ",
            fault_word(fault.word),
            b" ",
            x,
            b" ",
            y,
            b"\n",
        ],
    )
}

impl RouteRefusal {
    ghost use Rattle.wwroute_tool.specs.Refusing.{route_line, route_status};

    /// Returns the exit status.
    pub fn status(&self) -> u8
        ensures { result ≡ route_status self.now }
    {
        match self {
            RouteRefusal::Usage => 2,
            RouteRefusal::NotCircuit(_) => 12,
            RouteRefusal::Common(refusal) => refusal.status(),
        }
    }

    /// Writes the one line that tells the refusal, or a prefix of it if a write fails.
    pub fn tell<E: Sink>(&self, err: &mut E) -> Result<(), Failed>
        ensures ok { OnOk result (Appends (E.written err.old) (E.written err.new)
            (route_line self.now)) }
        ensures front { OnErr result
            ((n : ℕ) × Appends (E.written err.old) (E.written err.new)
            (take n (route_line self.now))) }
        ensures cause { HasCause (E.faults err.old) (E.faults err.new) result }
    {
        match self {
            RouteRefusal::Usage => write_all(err, b"usage: wwroute extract|route\n"),
            RouteRefusal::NotCircuit(fault) => tell_fault(err, *fault),
            RouteRefusal::Common(refusal) => refusal.tell(err),
        }
    }
}
