// The lines of latches, gates and outputs.
ghost use Rattle.std.specs.Prelude.{◌≡◌, ◌<◌, ℕ, List, [], ◌∷◌, ◌++◌, codes, OnOk, OnErr};
ghost use Rattle.ww_base.specs.Pages.{held};
ghost use Rattle.ww_base.specs.Progress.{Wrote, Broke};
ghost use Rattle.blif_text.specs.declared.logical.Logical.{Logical};
ghost use Rattle.cell_core.specs.declared.cells.Cell.{Cell};
ghost use Rattle.lifted_designs.specs.Lifted.{first_of, second_of};
ghost use Rattle.lifted_designs.specs.Lines.{cell_lines, latch_lines, lines_of_outputs, row, rows_then, start_word};
ghost use Rattle.blif_write.specs.Text.{worded_text};
ghost use Rattle.blif_write.specs.Words.{mark_in, output_then};

use crate::Lift;
use crate::lines::write_line;
use crate::word::LineWord;
use cell_core::{Cell, Src};
use ww_base::{Failed, Page, Sink};

// The word for the bit with which a loop starts.
fn start_word(start: bool) -> &'static [u8]
    ensures { result.now ≡ start_word start }
{
    if start { b"1" } else { b"0" }
}

// Writes the line of a loop's latch.
fn write_latch<O: Sink>(
    sink: &mut O,
    page: &mut Page,
    lift: &Lift,
    number: usize,
    source: Src,
    start: bool,
) -> Result<(), Failed>
    ensures ok { OnOk result ((n : ℕ) (more : List Logical) →
        Wrote (O.written sink.old) (O.written sink.new) (O.faults sink.old) (O.faults sink.new)
        (held page.old ++ worded_text (latch_lines (mark_in lift.now) lift.now.ins n number
        (source ∷ []) (start ∷ []) more)) (held page.new ++ worded_text more)) }
    ensures err { OnErr result ((n : ℕ) (more : List Logical) →
        Broke (O.written sink.old) (O.written sink.new) (O.faults sink.old) (O.faults sink.new)
        (held page.old ++ worded_text (latch_lines (mark_in lift.now) lift.now.ins n number
        (source ∷ []) (start ∷ []) more))) }
{
    let words = [
        LineWord::Net(source),
        LineWord::Loop(number),
        LineWord::Bytes(start_word(start)),
    ];
    write_line(sink, page, lift, b".latch", &words)
}

/// Writes the lines of all latches.
pub fn write_latches<O: Sink>(sink: &mut O, page: &mut Page, lift: &Lift) -> Result<(), Failed>
    ensures ok { OnOk result ((n : ℕ) (more : List Logical) →
        Wrote (O.written sink.old) (O.written sink.new) (O.faults sink.old) (O.faults sink.new)
        (held page.old ++ worded_text (latch_lines
        (mark_in lift.now) lift.now.ins n 0 lift.now.list.latches lift.now.list.starts more))
        (held page.new ++ worded_text more)) }
    ensures err { OnErr result ((n : ℕ) (more : List Logical) →
        Broke (O.written sink.old) (O.written sink.new) (O.faults sink.old) (O.faults sink.new)
        (held page.old ++ worded_text (latch_lines
        (mark_in lift.now) lift.now.ins n 0 lift.now.list.latches lift.now.list.starts more))) }
{
    for number in 0..lift.list.latches.len() {
        let source = *lift.list.latches.get(number);
        let start = *lift.list.starts.get(number);
        write_latch(sink, page, lift, number, source, start)?;
    }
    Ok(())
}

// The two sources that a gate reads.
fn sources(cell: Cell) -> (Src, Src)
    ensures first { result.0 ≡ first_of cell }
    ensures second { result.1 ≡ second_of cell }
{
    match cell {
        Cell::Or(a, b) | Cell::Xor(a, b) | Cell::AndNot(a, b) => (a, b),
    }
}

// Writes a row of a cover: the bits of the nets that the cover reads, and 1.
fn write_row<O: Sink>(sink: &mut O, page: &mut Page, lift: &Lift, bits: &[u8]) -> Result<(), Failed>
    ensures ok { OnOk result ((n : ℕ) (more : List Logical) →
        Wrote (O.written sink.old) (O.written sink.new) (O.faults sink.old) (O.faults sink.new)
        (held page.old ++ worded_text (row n bits.now (codes "1") ∷ more))
        (held page.new ++ worded_text more)) }
    ensures err { OnErr result ((n : ℕ) (more : List Logical) →
        Broke (O.written sink.old) (O.written sink.new) (O.faults sink.old) (O.faults sink.new)
        (held page.old ++ worded_text (row n bits.now (codes "1") ∷ more))) }
{
    write_line(sink, page, lift, bits, &[LineWord::Bytes(b"1")])
}

// Writes the rows of a gate.
fn write_rows<O: Sink>(sink: &mut O, page: &mut Page, lift: &Lift, cell: Cell) -> Result<(), Failed>
    ensures ok { OnOk result ((n : ℕ) (more : List Logical) →
        Wrote (O.written sink.old) (O.written sink.new) (O.faults sink.old) (O.faults sink.new)
        (held page.old ++ worded_text (rows_then n cell more))
        (held page.new ++ worded_text more)) }
    ensures err { OnErr result ((n : ℕ) (more : List Logical) →
        Broke (O.written sink.old) (O.written sink.new) (O.faults sink.old) (O.faults sink.new)
        (held page.old ++ worded_text (rows_then n cell more))) }
{
    match cell {
        Cell::Or(_, _) => {
            write_row(sink, page, lift, b"1-")?;
            write_row(sink, page, lift, b"-1")
        }
        Cell::Xor(_, _) => {
            write_row(sink, page, lift, b"10")?;
            write_row(sink, page, lift, b"01")
        }
        Cell::AndNot(_, _) => write_row(sink, page, lift, b"10"),
    }
}

// Writes the lines of a gate.
fn write_gate<O: Sink>(
    sink: &mut O,
    page: &mut Page,
    lift: &Lift,
    number: usize,
    cell: Cell,
) -> Result<(), Failed>
    ensures ok { OnOk result ((n : ℕ) (more : List Logical) →
        Wrote (O.written sink.old) (O.written sink.new) (O.faults sink.old) (O.faults sink.new)
        (held page.old ++ worded_text (cell_lines (mark_in lift.now) lift.now.ins n number
        (cell ∷ []) more)) (held page.new ++ worded_text more)) }
    ensures err { OnErr result ((n : ℕ) (more : List Logical) →
        Broke (O.written sink.old) (O.written sink.new) (O.faults sink.old) (O.faults sink.new)
        (held page.old ++ worded_text (cell_lines (mark_in lift.now) lift.now.ins n number
        (cell ∷ []) more))) }
{
    let (a, b) = sources(cell);
    let words = [LineWord::Net(a), LineWord::Net(b), LineWord::Gate(number)];
    write_line(sink, page, lift, b".names", &words)?;
    write_rows(sink, page, lift, cell)
}

/// Writes the lines of all gates.
pub fn write_gates<O: Sink>(sink: &mut O, page: &mut Page, lift: &Lift) -> Result<(), Failed>
    ensures ok { OnOk result ((n : ℕ) (more : List Logical) →
        Wrote (O.written sink.old) (O.written sink.new) (O.faults sink.old) (O.faults sink.new)
        (held page.old ++ worded_text (cell_lines
        (mark_in lift.now) lift.now.ins n 0 lift.now.list.cells more))
        (held page.new ++ worded_text more)) }
    ensures err { OnErr result ((n : ℕ) (more : List Logical) →
        Broke (O.written sink.old) (O.written sink.new) (O.faults sink.old) (O.faults sink.new)
        (held page.old ++ worded_text (cell_lines
        (mark_in lift.now) lift.now.ins n 0 lift.now.list.cells more))) }
{
    for number in 0..lift.list.cells.len() {
        let cell = *lift.list.cells.get(number);
        write_gate(sink, page, lift, number, cell)?;
    }
    Ok(())
}

// Writes the lines of an output.
fn write_output<O: Sink>(
    sink: &mut O,
    page: &mut Page,
    lift: &Lift,
    source: Src,
    name: &[u8],
) -> Result<(), Failed>
    ensures ok { OnOk result ((n : ℕ) (more : List Logical) →
        Wrote (O.written sink.old) (O.written sink.new) (O.faults sink.old) (O.faults sink.new)
        (held page.old ++ worded_text (output_then lift.now n source name.now more))
        (held page.new ++ worded_text more)) }
    ensures err { OnErr result ((n : ℕ) (more : List Logical) →
        Broke (O.written sink.old) (O.written sink.new) (O.faults sink.old) (O.faults sink.new)
        (held page.old ++ worded_text (output_then lift.now n source name.now more))) }
{
    let words = [LineWord::Net(source), LineWord::Bytes(name)];
    write_line(sink, page, lift, b".names", &words)?;
    write_row(sink, page, lift, b"1")
}

/// Writes the lines of all outputs, and `.end`.
pub fn write_outputs<O: Sink>(sink: &mut O, page: &mut Page, lift: &Lift) -> Result<(), Failed>
    ensures ok { OnOk result ((n : ℕ) →
        Wrote (O.written sink.old) (O.written sink.new) (O.faults sink.old) (O.faults sink.new)
        (held page.old ++ worded_text (lines_of_outputs
        (mark_in lift.now) lift.now.ins n lift.now.outs lift.now.list.outs))
        (held page.new ++ [])) }
    ensures err { OnErr result ((n : ℕ) →
        Broke (O.written sink.old) (O.written sink.new) (O.faults sink.old) (O.faults sink.new)
        (held page.old ++ worded_text (lines_of_outputs
        (mark_in lift.now) lift.now.ins n lift.now.outs lift.now.list.outs))) }
{
    for number in 0..lift.list.outs.len() {
        let source = *lift.list.outs.get(number);
        let name = lift.outs.get(number).as_slice();
        write_output(sink, page, lift, source, name)?;
    }
    write_line(sink, page, lift, b".end", &[])
}
