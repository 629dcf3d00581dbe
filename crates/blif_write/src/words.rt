// The words of lines.
ghost use Rattle.std.specs.Prelude.{◌≡◌, ℕ, List, ◌∷◌, ◌++◌, decimal, OnOk, OnErr};
ghost use Rattle.lists.specs.Items.{list_at};
ghost use Rattle.ww_base.specs.Pages.{held};
ghost use Rattle.ww_base.specs.Progress.{Wrote, Broke};
ghost use Rattle.lifted_designs.specs.Names.{zero_name};
ghost use Rattle.blif_write.specs.Marks.{mark_after};
ghost use Rattle.blif_write.specs.Words.{source_in, word_in};

use crate::Lift;
use crate::word::LineWord;
use cell_core::Src;
use itoa::Buffer;
use lists::Bytes;
use ww_base::{Failed, Page, Sink};

// Writes one `_` more than `leading`.
fn write_mark<O: Sink>(sink: &mut O, page: &mut Page, leading: usize) -> Result<(), Failed>
    ensures ok { OnOk result ((rest : List ℕ) →
        Wrote (O.written sink.old) (O.written sink.new) (O.faults sink.old) (O.faults sink.new)
        (held page.old ++ (mark_after leading ++ rest)) (held page.new ++ rest)) }
    ensures err { OnErr result ((rest : List ℕ) →
        Broke (O.written sink.old) (O.written sink.new) (O.faults sink.old) (O.faults sink.new)
        (held page.old ++ (mark_after leading ++ rest))) }
{
    for _ in 0..leading {
        page.put(sink, b"_")?;
    }
    page.put(sink, b"_")
}

// Writes the name that consists of the mark, a letter and a number.
fn write_numbered<O: Sink>(
    sink: &mut O,
    page: &mut Page,
    leading: usize,
    letter: u8,
    number: usize,
) -> Result<(), Failed>
    ensures ok { OnOk result ((rest : List ℕ) →
        Wrote (O.written sink.old) (O.written sink.new) (O.faults sink.old) (O.faults sink.new)
        (held page.old ++ ((mark_after leading ++ (letter ∷ decimal number)) ++ rest))
        (held page.new ++ rest)) }
    ensures err { OnErr result ((rest : List ℕ) →
        Broke (O.written sink.old) (O.written sink.new) (O.faults sink.old) (O.faults sink.new)
        (held page.old ++ ((mark_after leading ++ (letter ∷ decimal number)) ++ rest))) }
{
    let mut buffer = Buffer::new();
    let digits = buffer.format(number);
    write_mark(sink, page, leading)?;
    page.put(sink, &[letter])?;
    page.put(sink, digits.as_bytes())
}

// Writes the name of constant 0.
fn write_zero<O: Sink>(sink: &mut O, page: &mut Page, leading: usize) -> Result<(), Failed>
    ensures ok { OnOk result ((rest : List ℕ) →
        Wrote (O.written sink.old) (O.written sink.new) (O.faults sink.old) (O.faults sink.new)
        (held page.old ++ (zero_name (mark_after leading) ++ rest)) (held page.new ++ rest)) }
    ensures err { OnErr result ((rest : List ℕ) →
        Broke (O.written sink.old) (O.written sink.new) (O.faults sink.old) (O.faults sink.new)
        (held page.old ++ (zero_name (mark_after leading) ++ rest))) }
{
    write_mark(sink, page, leading)?;
    page.put(sink, b"z")
}

// The name of an input, or no bytes if there is no such input.
fn name_at(names: &[Bytes], number: usize) -> &[u8]
    ensures { result.now ≡ list_at names.now number }
{
    match names.get(number) {
        Some(name) => name.as_slice(),
        None => &[],
    }
}

// Writes the name of a source.
fn write_source<O: Sink>(
    sink: &mut O,
    page: &mut Page,
    lift: &Lift,
    source: Src,
) -> Result<(), Failed>
    ensures ok { OnOk result ((rest : List ℕ) →
        Wrote (O.written sink.old) (O.written sink.new) (O.faults sink.old) (O.faults sink.new)
        (held page.old ++ (source_in lift.now source ++ rest)) (held page.new ++ rest)) }
    ensures err { OnErr result ((rest : List ℕ) →
        Broke (O.written sink.old) (O.written sink.new) (O.faults sink.old) (O.faults sink.new)
        (held page.old ++ (source_in lift.now source ++ rest))) }
{
    match source {
        Src::Input(i) => page.put(sink, name_at(lift.ins.as_slice(), i as usize)),
        Src::Latch(i) => write_numbered(sink, page, lift.leading, b'q', i as usize),
        Src::One | Src::Zero => write_zero(sink, page, lift.leading),
        Src::Cell(i) => write_numbered(sink, page, lift.leading, b'g', i as usize),
    }
}

/// Writes a word.
pub fn write_word<O: Sink>(
    sink: &mut O,
    page: &mut Page,
    lift: &Lift,
    word: LineWord,
) -> Result<(), Failed>
    ensures ok { OnOk result ((rest : List ℕ) →
        Wrote (O.written sink.old) (O.written sink.new) (O.faults sink.old) (O.faults sink.new)
        (held page.old ++ (word_in lift.now word.entry ++ rest)) (held page.new ++ rest)) }
    ensures err { OnErr result ((rest : List ℕ) →
        Broke (O.written sink.old) (O.written sink.new) (O.faults sink.old) (O.faults sink.new)
        (held page.old ++ (word_in lift.now word.entry ++ rest))) }
{
    match word {
        LineWord::Bytes(bytes) => page.put(sink, bytes),
        LineWord::Net(source) => write_source(sink, page, lift, source),
        LineWord::Loop(number) => write_numbered(sink, page, lift.leading, b'q', number),
        LineWord::Gate(number) => write_numbered(sink, page, lift.leading, b'g', number),
    }
}
