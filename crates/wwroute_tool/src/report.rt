// The lines that tell the weight of a netlist, and the size of an answer.
ghost use Rattle.std.specs.Prelude.{ℕ, ◌++◌, ◌≢◌, [], take, OnOk, OnErr};
ghost use Rattle.std.specs.Io.KnownBytes.{Appends};
ghost use Rattle.ww_base.specs.Faults.{HasCause};
ghost use Rattle.program_runs.specs.Tells.{Tells};
ghost use Rattle.wwroute_tool.specs.Answers.{notice_line, size_text};

use itoa::Buffer;
use ww_base::{Failed, Sink, write_pieces};

/// A pattern's box of cells, and the period of its port table.
#[derive(Clone, Copy)]
pub struct Size {
    pub width: u64,
    pub height: u64,
    pub period: u64,
}

/// What is told before an answer and beside it.
#[derive(Clone, Copy)]
pub enum Report {
    /// Nothing, beside a netlist.
    Nothing,
    /// The weight of a netlist that is to be drawn, if the search may take long.
    Notice(u64),
    /// The size of a routed circuit.
    Routed(Size),
    /// The size of a pattern that is drawn by lanes, as `compile` draws it.
    ByLanes(Size),
}

// Tells a size, and how the pattern is drawn.
fn tell_size<E: Sink>(err: &mut E, size: Size, end: &[u8]) -> Result<(), Failed>
    ensures { Tells (size_text size.width size.height size.period ++ end.now)
        (E.written err.old) (E.written err.new) (E.faults err.old) (E.faults err.new) result }
{
    let mut widths = Buffer::new();
    let mut heights = Buffer::new();
    let mut periods = Buffer::new();
    let width = widths.format(size.width).as_bytes();
    let height = heights.format(size.height).as_bytes();
    let period = periods.format(size.period).as_bytes();
    write_pieces(err, &[b"box ", width, b" x ", height, b", P ", period, end])
}

// Tells the weight of a netlist that is to be drawn.
fn tell_weight<E: Sink>(err: &mut E, weight: u64) -> Result<(), Failed>
    ensures { Tells (notice_line weight)
        (E.written err.old) (E.written err.new) (E.faults err.old) (E.faults err.new) result }
{
    let mut digits = Buffer::new();
    let number = digits.format(weight).as_bytes();
    write_pieces(
        err,
        &[
            b"drawing a netlist of weight ",
            number,
            b": this may take some time\n",
        ],
    )
}

impl Report {
    ghost use Rattle.wwroute_tool.specs.Answers.{report_line};

    /// Writes the line of the report, or a prefix of it if a write fails. Where there is no line,
    /// nothing is written, and nothing fails.
    pub fn tell<E: Sink>(self, err: &mut E) -> Result<(), Failed>
        ensures ok { OnOk result (Appends (E.written err.old) (E.written err.new)
            (report_line self)) }
        ensures front { OnErr result
            ((n : ℕ) × Appends (E.written err.old) (E.written err.new)
            (take n (report_line self))) }
        ensures some { OnErr result (report_line self ≢ []) }
        ensures cause { HasCause (E.faults err.old) (E.faults err.new) result }
    {
        match self {
            Report::Nothing => Ok(()),
            Report::Notice(weight) => tell_weight(err, weight),
            Report::Routed(size) => tell_size(err, size, b"\n"),
            Report::ByLanes(size) => tell_size(err, size, b", drawn by lanes\n"),
        }
    }
}
