// The lines that tell refusals. Each line is gathered on a page, and written at once if it fits one
// page. Telling takes no memory.
ghost use Rattle.std.specs.Prelude.{◌≡◌, ℕ, List, ◌++◌, take, OnOk, OnErr};
ghost use Rattle.std.specs.Io.KnownBytes.{Appends};
ghost use Rattle.ww_base.specs.Faults.{HasCause};
ghost use Rattle.ww_base.specs.Pages.{held};
ghost use Rattle.ww_base.specs.Progress.{Wrote, Broke};
ghost use Rattle.program_runs.specs.Tells.{Tells};
ghost use Rattle.program_runs.specs.Refusals.{rle_fault_name, port_fault_name, start_fault_name, stream_fault_name, circuit_fault_name, circuit_line, fault_line, stream_line, fault_text, netlist_line, after_blanks, loop_line, aig_fault_text, aig_fault_line, spaced_numbers, aig_loop_line, cause_line, refusal_line};

use crate::causes::Cause;
use crate::refusal::Refusal;
use aiger_text::AigFault;
use blif_text::Fault;
use drive::StreamFaultKind;
use itoa::Buffer;
use lists::Bytes;
use netlist_core::WEIGHT_LIMIT;
use pattern_reading::{PortFaultKind, RleFaultKind};
use start_words::StartFaultKind;
use tile_match::CircuitFault;
use ww_base::{Failed, Page, Sink, write_all, write_pieces};

// The printed name of a fault of a pattern's text.
fn rle_fault_name(kind: RleFaultKind) -> &'static [u8]
    ensures { result.now ≡ rle_fault_name kind }
{
    match kind {
        RleFaultKind::NoHeader => b"G1 NoHeader",
        RleFaultKind::BadHeader => b"G2 BadHeader",
        RleFaultKind::OtherRule => b"G3 OtherRule",
        RleFaultKind::BadItem => b"G4 BadItem",
        RleFaultKind::CellOutside => b"G5 CellOutside",
        RleFaultKind::NoEnd => b"G6 NoEnd",
    }
}

// The printed name of a fault of a port table.
fn port_fault_name(kind: PortFaultKind) -> &'static [u8]
    ensures { result.now ≡ port_fault_name kind }
{
    match kind {
        PortFaultKind::BadLine => b"H1 BadLine",
        PortFaultKind::BadOrder => b"H2 BadOrder",
        PortFaultKind::CellOutside => b"H3 CellOutside",
        PortFaultKind::Twice => b"H4 Twice",
    }
}

// The printed name of a fault of streams.
fn stream_fault_name(kind: StreamFaultKind) -> &'static [u8]
    ensures { result.now ≡ stream_fault_name kind }
{
    match kind {
        StreamFaultKind::NoEquals => b"NoEquals",
        StreamFaultKind::BadContext => b"BadContext",
        StreamFaultKind::UnknownInput => b"UnknownInput",
        StreamFaultKind::TwiceInput => b"TwiceInput",
        StreamFaultKind::BadBit => b"BadBit",
        StreamFaultKind::BadLength => b"BadLength",
        StreamFaultKind::MissingInput => b"MissingInput",
    }
}

// The printed name of a fault of start words.
fn start_fault_name(kind: StartFaultKind) -> &'static [u8]
    ensures { result.now ≡ start_fault_name kind }
{
    match kind {
        StartFaultKind::NoEquals => b"NoEquals",
        StartFaultKind::BadContext => b"BadContext",
        StartFaultKind::NoSuchLatch => b"NoSuchLatch",
        StartFaultKind::TwiceLatch => b"TwiceLatch",
        StartFaultKind::BadBit => b"BadBit",
    }
}

// The printed reason why a pattern is no circuit.
fn circuit_fault_name(fault: CircuitFault) -> &'static [u8]
    ensures { result.now ≡ circuit_fault_name fault }
{
    match fault {
        CircuitFault::Ports => b"Ports",
        CircuitFault::Names => b"Names",
        CircuitFault::Cells => b"Cells",
    }
}

// Tells a fault and its line.
fn tell_fault<E: Sink>(err: &mut E, name: &[u8], line: u64) -> Result<(), Failed>
    ensures { Tells (fault_line name.now line)
        (E.written err.old) (E.written err.new) (E.faults err.old) (E.faults err.new) result }
{
    let mut digits = Buffer::new();
    write_pieces(
        err,
        &[name, b" line ", digits.format(line).as_bytes(), b"\n"],
    )
}

// Tells the box that has too many cells.
fn tell_grid<E: Sink>(err: &mut E, width: u64, height: u64) -> Result<(), Failed>
    ensures { Tells (cause_line (Cause.GridTooLarge width height))
        (E.written err.old) (E.written err.new) (E.faults err.old) (E.faults err.new) result }
{
    let mut columns = Buffer::new();
    let mut rows = Buffer::new();
    let x = columns.format(width).as_bytes();
    let y = rows.format(height).as_bytes();
    write_pieces(err, &[b"too large: grid ", x, b" by ", y, b"\n"])
}

// Tells the number of generations, which is over the limit.
fn tell_generations<E: Sink>(err: &mut E, generations: u128) -> Result<(), Failed>
    ensures { Tells (cause_line (Cause.TooFar generations))
        (E.written err.old) (E.written err.new) (E.faults err.old) (E.faults err.new) result }
{
    let mut digits = Buffer::new();
    let count = digits.format(generations).as_bytes();
    write_pieces(err, &[b"too large: generations ", count, b"\n"])
}

// Tells an injection that meets no conductor.
fn tell_miss<E: Sink>(err: &mut E, generation: u64, x: u64, y: u64) -> Result<(), Failed>
    ensures { Tells (cause_line (Cause.NotQuiet generation x y))
        (E.written err.old) (E.written err.new) (E.faults err.old) (E.faults err.new) result }
{
    let mut digits = Buffer::new();
    let mut columns = Buffer::new();
    let mut rows = Buffer::new();
    let when = digits.format(generation).as_bytes();
    let column = columns.format(x).as_bytes();
    let row = rows.format(y).as_bytes();
    write_pieces(
        err,
        &[
            b"not quiet: generation ",
            when,
            b" cell ",
            column,
            b" ",
            row,
            b"\n",
        ],
    )
}

// Tells why a pattern is no circuit.
fn tell_circuit<E: Sink>(err: &mut E, fault: CircuitFault) -> Result<(), Failed>
    ensures { Tells (circuit_line (circuit_fault_name fault))
        (E.written err.old) (E.written err.new) (E.faults err.old) (E.faults err.new) result }
{
    write_pieces(err, &[b"not a circuit: ", circuit_fault_name(fault), b"\n"])
}

// Tells the number of contexts, which is over the limit.
fn tell_contexts<E: Sink>(err: &mut E, contexts: u64, limit: u64) -> Result<(), Failed>
    ensures { Tells (cause_line (Cause.TooManyContexts contexts limit))
        (E.written err.old) (E.written err.new) (E.faults err.old) (E.faults err.new) result }
{
    let mut digits = Buffer::new();
    let mut limits = Buffer::new();
    let count = digits.format(contexts).as_bytes();
    let limit = limits.format(limit).as_bytes();
    write_pieces(
        err,
        &[b"too large: contexts ", count, b" limit ", limit, b"\n"],
    )
}

// Tells a fault of streams or of start words, and the word at fault.
fn tell_streams<'a, E: Sink>(err: &mut E, name: &'a [u8], word: &'a [u8]) -> Result<(), Failed>
    ensures { Tells (stream_line name.now word.now)
        (E.written err.old) (E.written err.new) (E.faults err.old) (E.faults err.new) result }
{
    write_pieces(err, &[b"stream: ", name, b" ", word, b"\n"])
}

// Writes a fault of a netlist's text, by its parts.
fn write_fault<'a, E: Sink>(
    err: &mut E,
    number: &'a [u8],
    name: &'a [u8],
    line: &'a [u8],
    word: &'a [u8],
) -> Result<(), Failed>
    ensures { Tells (fault_text number.now name.now line.now word.now)
        (E.written err.old) (E.written err.new) (E.faults err.old) (E.faults err.new) result }
{
    write_pieces(
        err,
        &[
            b"B", number, b" ", name, b" line ", line, b": ", word, b"\n",
        ],
    )
}

// Tells a fault of a netlist's text.
fn tell_netlist_fault<E: Sink>(err: &mut E, fault: &Fault) -> Result<(), Failed>
    ensures { Tells (netlist_line fault.now)
        (E.written err.old) (E.written err.new) (E.faults err.old) (E.faults err.new) result }
{
    let mut digits = Buffer::new();
    let mut lines = Buffer::new();
    let number = digits.format(fault.kind.number()).as_bytes();
    let line = lines.format(fault.line).as_bytes();
    let name = fault.kind.name().as_bytes();
    write_fault(err, number, name, line, fault.word.as_slice())
}

// Writes a fault of a circuit's text, by its parts.
fn write_aig_fault<'a, E: Sink>(
    err: &mut E,
    number: &'a [u8],
    name: &'a [u8],
    line: &'a [u8],
) -> Result<(), Failed>
    ensures { Tells (aig_fault_text number.now name.now line.now)
        (E.written err.old) (E.written err.new) (E.faults err.old) (E.faults err.new) result }
{
    write_pieces(err, &[b"A", number, b" ", name, b" line ", line, b"\n"])
}

// Tells a fault of a circuit's text.
fn tell_aig_fault<E: Sink>(err: &mut E, fault: AigFault) -> Result<(), Failed>
    ensures { Tells (aig_fault_line fault)
        (E.written err.old) (E.written err.new) (E.faults err.old) (E.faults err.new) result }
{
    let mut digits = Buffer::new();
    let mut lines = Buffer::new();
    let number = digits.format(fault.kind.number()).as_bytes();
    let line = lines.format(fault.line).as_bytes();
    let name = fault.kind.name().as_bytes();
    write_aig_fault(err, number, name, line)
}

// Tells that a netlist weighs too much.
fn tell_weight<E: Sink>(err: &mut E, weight: u64) -> Result<(), Failed>
    ensures { Tells (cause_line (Cause.WeightTooLarge weight))
        (E.written err.old) (E.written err.new) (E.faults err.old) (E.faults err.new) result }
{
    let mut digits = Buffer::new();
    let mut limits = Buffer::new();
    let count = digits.format(weight).as_bytes();
    let limit = limits.format(WEIGHT_LIMIT).as_bytes();
    write_pieces(
        err,
        &[b"too large: weight ", count, b" limit ", limit, b"\n"],
    )
}

// Adds each name to a page, after a blank.
fn put_spaced<E: Sink>(err: &mut E, page: &mut Page, names: &[Bytes]) -> Result<(), Failed>
    ensures ok { OnOk result ((rest : List ℕ) →
        Wrote (E.written err.old) (E.written err.new) (E.faults err.old) (E.faults err.new)
        (held page.old ++ (after_blanks names.now ++ rest)) (held page.new ++ rest)) }
    ensures err { OnErr result ((rest : List ℕ) →
        Broke (E.written err.old) (E.written err.new) (E.faults err.old) (E.faults err.new)
        (held page.old ++ (after_blanks names.now ++ rest))) }
{
    for name in names {
        page.put(err, b" ")?;
        page.put(err, name.as_slice())?;
    }
    Ok(())
}

// Tells a loop by the names of its nets.
fn tell_loop<E: Sink>(err: &mut E, names: &[Bytes]) -> Result<(), Failed>
    ensures ok { OnOk result (Appends (E.written err.old) (E.written err.new)
        (loop_line names.now)) }
    ensures front { OnErr result
        ((n : ℕ) × Appends (E.written err.old) (E.written err.new) (take n (loop_line names.now))) }
    ensures cause { HasCause (E.faults err.old) (E.faults err.new) result }
{
    let mut page = Page::new();
    page.put(err, b"loop:")?;
    put_spaced(err, &mut page, names)?;
    page.put(err, b"\n")?;
    page.flush(err)
}

// Adds each number to a page, in decimal, after a blank.
fn put_numbers<E: Sink>(err: &mut E, page: &mut Page, numbers: &[u64]) -> Result<(), Failed>
    ensures ok { OnOk result ((rest : List ℕ) →
        Wrote (E.written err.old) (E.written err.new) (E.faults err.old) (E.faults err.new)
        (held page.old ++ (spaced_numbers numbers.now ++ rest)) (held page.new ++ rest)) }
    ensures err { OnErr result ((rest : List ℕ) →
        Broke (E.written err.old) (E.written err.new) (E.faults err.old) (E.faults err.new)
        (held page.old ++ (spaced_numbers numbers.now ++ rest))) }
{
    for number in numbers {
        let mut digits = Buffer::new();
        page.put(err, b" ")?;
        page.put(err, digits.format(*number).as_bytes())?;
    }
    Ok(())
}

// Tells a loop of a circuit by the literals of its left sides.
fn tell_aig_loop<E: Sink>(err: &mut E, literals: &[u64]) -> Result<(), Failed>
    ensures ok { OnOk result (Appends (E.written err.old) (E.written err.new)
        (aig_loop_line literals.now)) }
    ensures front { OnErr result
        ((n : ℕ) × Appends (E.written err.old) (E.written err.new)
        (take n (aig_loop_line literals.now))) }
    ensures cause { HasCause (E.faults err.old) (E.faults err.new) result }
{
    let mut page = Page::new();
    page.put(err, b"loop:")?;
    put_numbers(err, &mut page, literals)?;
    page.put(err, b"\n")?;
    page.flush(err)
}

impl Cause {
    // Writes the one line that tells the cause, or a prefix of it if a write fails.
    fn tell<E: Sink>(&self, err: &mut E) -> Result<(), Failed>
        ensures ok { OnOk result (Appends (E.written err.old) (E.written err.new)
            (cause_line self.now)) }
        ensures front { OnErr result
            ((n : ℕ) × Appends (E.written err.old) (E.written err.new)
            (take n (cause_line self.now))) }
        ensures cause { HasCause (E.faults err.old) (E.faults err.new) result }
    {
        match self {
            Cause::NetlistFault(fault) => tell_netlist_fault(err, fault),
            Cause::WeightTooLarge { weight } => tell_weight(err, *weight),
            Cause::Loop(names) => tell_loop(err, names.as_slice()),
            Cause::AigAtFault(fault) => tell_aig_fault(err, *fault),
            Cause::AigLoop(literals) => tell_aig_loop(err, literals.as_slice()),
            Cause::Pattern(fault) => tell_fault(err, rle_fault_name(fault.kind), fault.line),
            Cause::GridTooLarge { width, height } => tell_grid(err, *width, *height),
            Cause::PortTable(fault) => tell_fault(err, port_fault_name(fault.kind), fault.line),
            Cause::Streams(fault) => {
                tell_streams(err, stream_fault_name(fault.kind), fault.word.as_slice())
            }
            Cause::StartWord(fault) => {
                tell_streams(err, start_fault_name(fault.kind), fault.word.as_slice())
            }
            Cause::NoSuchNet(name) => tell_streams(err, b"NoSuchNet", name.as_slice()),
            Cause::TooFar { generations } => tell_generations(err, *generations),
            Cause::TooManyContexts { contexts, limit } => tell_contexts(err, *contexts, *limit),
            Cause::NotQuiet { generation, x, y } => tell_miss(err, *generation, *x, *y),
            Cause::NotCircuit(fault) => tell_circuit(err, *fault),
        }
    }
}

impl Refusal {
    /// Writes the one line that tells the refusal, or a prefix of it if a write fails.
    pub fn tell<E: Sink>(&self, err: &mut E) -> Result<(), Failed>
        ensures ok { OnOk result (Appends (E.written err.old) (E.written err.new)
            (refusal_line self.now)) }
        ensures front { OnErr result
            ((n : ℕ) × Appends (E.written err.old) (E.written err.new)
            (take n (refusal_line self.now))) }
        ensures cause { HasCause (E.faults err.old) (E.faults err.new) result }
    {
        match self {
            Refusal::Usage => write_all(
                err,
                b"usage: blifww compile|simulate|eval|probe|window|make|self|tape|aiger|vcd|lift\n",
            ),
            Refusal::TooLong => write_all(err, b"too long: limit 16777216\n"),
            Refusal::ReadFault => write_all(err, b"read fault\n"),
            Refusal::WriteFault => write_all(err, b"write fault\n"),
            Refusal::NoMemory => write_all(err, b"no memory\n"),
            Refusal::Text(cause) => cause.tell(err),
        }
    }
}
