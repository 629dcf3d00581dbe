// The faults of an AIGER text.
ghost use Rattle.std.specs.Prelude.{◌≡◌};
ghost use Rattle.aiger_text.specs.FaultNames.{aig_fault_name, aig_fault_number};

/// The kinds of faults, in the order of their numbers, from 1. The first fault of a text is what is
/// wrong in the header; then the earliest line that breaks any rule but `Undefined` and `SameName`,
/// with the lowest number on that line; then `Undefined` at its earliest line; then `SameName`, for
/// an input before an output, at its earliest line.
#[derive(Clone, Copy, Debug)]
pub enum AigFaultKind {
    /// Line 1 is not `aag` and five numbers, and is not `Unsupported`.
    BadHeader,
    /// The first word of line 1 is `aig`, or line 1 is `aag` and more than five numbers.
    Unsupported,
    /// A line of the four sections has another form, or is missing; a missing line is the line
    /// after the last.
    BadLine,
    /// A literal other than a reset is past those of the greatest variable, or an input, a latch or
    /// a left side is odd or below 2.
    BadLiteral,
    /// An earlier line defines the input, the latch or the left side.
    DefinedTwice,
    /// The line reads a literal above 1 whose variable no line defines.
    Undefined,
    /// The reset is neither 0, 1 nor the latch's own literal.
    BadReset,
    /// A line after the sections is no symbol, its name is empty, it names what does not exist, or
    /// an earlier line names the same input, latch or output.
    BadSymbol,
    /// An earlier input has the name of this input, or an earlier output that of this output. The
    /// line is that of the input or the output, in its section.
    SameName,
}

impl AigFaultKind {
    /// Returns the number that is printed after `A`.
    pub fn number(self) -> u8
        ensures { result ≡ aig_fault_number self }
    {
        match self {
            AigFaultKind::BadHeader => 1,
            AigFaultKind::Unsupported => 2,
            AigFaultKind::BadLine => 3,
            AigFaultKind::BadLiteral => 4,
            AigFaultKind::DefinedTwice => 5,
            AigFaultKind::Undefined => 6,
            AigFaultKind::BadReset => 7,
            AigFaultKind::BadSymbol => 8,
            AigFaultKind::SameName => 9,
        }
    }

    /// Returns the name that is printed.
    pub fn name(self) -> &'static str
        ensures { result.now ≡ aig_fault_name self }
    {
        match self {
            AigFaultKind::BadHeader => "BadHeader",
            AigFaultKind::Unsupported => "Unsupported",
            AigFaultKind::BadLine => "BadLine",
            AigFaultKind::BadLiteral => "BadLiteral",
            AigFaultKind::DefinedTwice => "DefinedTwice",
            AigFaultKind::Undefined => "Undefined",
            AigFaultKind::BadReset => "BadReset",
            AigFaultKind::BadSymbol => "BadSymbol",
            AigFaultKind::SameName => "SameName",
        }
    }
}

/// A fault, and the number of its line, from 1.
#[derive(Clone, Copy, Debug)]
pub struct AigFault {
    pub kind: AigFaultKind,
    pub line: u64,
}
