// The faults of a text.
ghost use Rattle.std.specs.Prelude.{◌≡◌};
ghost use Rattle.netlist_rules.specs.FaultNames.{name_of, number_of};

use lists::Bytes;
use std::fmt;

/// The kinds of faults, in the order of their numbers from 1; docs/FORMATS.md says when each comes.
/// `TwoClocks` and `ClockRead` are faults of the netlist with all its places; the others are faults
/// of the lines and the models.
#[derive(Clone, Copy, Debug)]
pub enum FaultKind {
    NoModelYet,
    UnknownDirective,
    Unsupported,
    BadCount,
    RowOutside,
    BadRow,
    MixedCover,
    BadLatch,
    BadPin,
    AfterEnd,
    DuplicateModel,
    DuplicatePort,
    MultipleDrivers,
    Undriven,
    NoSuchModel,
    NoSuchPin,
    PinTwice,
    PinMissing,
    Recursive,
    TwoClocks,
    ClockRead,
    NoModel,
}

impl FaultKind {
    /// Returns the number of the fault, which is printed after `B`.
    pub fn number(self) -> u8
        ensures { result ≡ number_of self }
    {
        match self {
            FaultKind::NoModelYet => 1,
            FaultKind::UnknownDirective => 2,
            FaultKind::Unsupported => 3,
            FaultKind::BadCount => 4,
            FaultKind::RowOutside => 5,
            FaultKind::BadRow => 6,
            FaultKind::MixedCover => 7,
            FaultKind::BadLatch => 8,
            FaultKind::BadPin => 9,
            FaultKind::AfterEnd => 10,
            FaultKind::DuplicateModel => 11,
            FaultKind::DuplicatePort => 12,
            FaultKind::MultipleDrivers => 13,
            FaultKind::Undriven => 14,
            FaultKind::NoSuchModel => 15,
            FaultKind::NoSuchPin => 16,
            FaultKind::PinTwice => 17,
            FaultKind::PinMissing => 18,
            FaultKind::Recursive => 19,
            FaultKind::TwoClocks => 20,
            FaultKind::ClockRead => 21,
            FaultKind::NoModel => 22,
        }
    }

    /// Returns the name of the fault, as it is printed, in ASCII.
    pub fn name(self) -> &'static str
        ensures { result.now ≡ name_of self }
    {
        match self {
            FaultKind::NoModelYet => "NoModelYet",
            FaultKind::UnknownDirective => "UnknownDirective",
            FaultKind::Unsupported => "Unsupported",
            FaultKind::BadCount => "BadCount",
            FaultKind::RowOutside => "RowOutside",
            FaultKind::BadRow => "BadRow",
            FaultKind::MixedCover => "MixedCover",
            FaultKind::BadLatch => "BadLatch",
            FaultKind::BadPin => "BadPin",
            FaultKind::AfterEnd => "AfterEnd",
            FaultKind::DuplicateModel => "DuplicateModel",
            FaultKind::DuplicatePort => "DuplicatePort",
            FaultKind::MultipleDrivers => "MultipleDrivers",
            FaultKind::Undriven => "Undriven",
            FaultKind::NoSuchModel => "NoSuchModel",
            FaultKind::NoSuchPin => "NoSuchPin",
            FaultKind::PinTwice => "PinTwice",
            FaultKind::PinMissing => "PinMissing",
            FaultKind::Recursive => "Recursive",
            FaultKind::TwoClocks => "TwoClocks",
            FaultKind::ClockRead => "ClockRead",
            FaultKind::NoModel => "NoModel",
        }
    }
}

/// A fault: its kind, the number of its line, and the word that it names.
#[derive(Drop)]
pub struct Fault {
    pub kind: FaultKind,
    pub line: u64,
    pub word: Bytes,
}

impl fmt::Debug for Fault {
    fn fmt<W: fmt::Write>(&self, f: &mut fmt::Formatter<W>) -> fmt::Result {
        f.debug_struct("Fault")
            .field("kind", &self.kind)
            .field("line", &self.line)
            .finish()
    }
}
