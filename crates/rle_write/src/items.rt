// Items on lines.
ghost use Rattle.std.specs.Prelude.{◌≡◌, ◌≢◌, ◌≤◌, ◌<◌, ◌+◌, ℕ, List, ◌∷◌, ◌++◌, length, OnOk, OnErr};
ghost use Rattle.pattern_writing.specs.Writer.{count_text, run_text, line_break, used_after};
ghost use Rattle.rle_write.specs.Taken.{BreaksInItem, WritesItem};
ghost use Rattle.ww_base.specs.Pages.{held, column_of};
ghost use Rattle.ww_base.specs.Progress.{Wrote, Broke};

use itoa::Buffer;
use ww_base::{Failed, Page, Sink};

/// The greatest number of bytes in a line of items.
pub const LINE: usize = 70;

// The digits of a count that is not 1.
fn count_digits(buffer: &mut Buffer, count: usize) -> &str
    requires { count ≢ 1 }
    ensures text { result.now ≡ count_text count }
    ensures short { length result.now ≤ 40 }
{
    buffer.format(count)
}

// Ends the line if an item of `size` bytes does not fit on it.
fn break_line<O: Sink>(sink: &mut O, page: &mut Page, size: usize) -> Result<(), Failed>
    requires { size ≤ 41 }
    ensures room { OnOk result (column_of page.new + size ≤ 70) }
    ensures start { OnOk result ((item : List ℕ) → length item ≡ size →
        column_of page.new + size ≡ used_after (column_of page.old) item) }
    ensures ok { OnOk result ((item rest : List ℕ) → length item ≡ size →
        Wrote (O.written sink.old) (O.written sink.new) (O.faults sink.old) (O.faults sink.new)
        (held page.old ++ (line_break (column_of page.old) item ++ rest)) (held page.new ++ rest)) }
    ensures err { OnErr result ((item rest : List ℕ) → length item ≡ size →
        Broke (O.written sink.old) (O.written sink.new) (O.faults sink.old) (O.faults sink.new)
        (held page.old ++ (line_break (column_of page.old) item ++ rest))) }
{
    if page.column() + size <= LINE {
        return Ok(());
    }
    page.put(sink, b"\n")?;
    page.begin_line();
    Ok(())
}

// Puts the bytes of an item on the line, or on the next one if they do not fit.
fn write_bytes<O: Sink>(sink: &mut O, page: &mut Page, item: &[u8]) -> Result<(), Failed>
    requires { length item.now ≤ 41 }
    ensures ok { OnOk result (WritesItem (O.written sink.old) (O.written sink.new) (O.faults sink.old)
        (O.faults sink.new) page.old page.new item.now) }
    ensures err { OnErr result (BreaksInItem (O.written sink.old) (O.written sink.new) (O.faults sink.old)
        (O.faults sink.new) page.old item.now) }
{
    break_line(sink, page, item.len())?;
    page.put(sink, item)?;
    page.advance(item.len());
    Ok(())
}

// Puts an item whose count has more than two digits.
fn write_long<O: Sink>(sink: &mut O, page: &mut Page, count: usize, tag: u8) -> Result<(), Failed>
    requires { 100 ≤ count }
    ensures ok { OnOk result (WritesItem (O.written sink.old) (O.written sink.new) (O.faults sink.old)
        (O.faults sink.new) page.old page.new (run_text (record { count = count; tag = tag }))) }
    ensures err { OnErr result (BreaksInItem (O.written sink.old) (O.written sink.new) (O.faults sink.old)
        (O.faults sink.new) page.old (run_text (record { count = count; tag = tag }))) }
{
    let mut buffer = Buffer::new();
    let digits = count_digits(&mut buffer, count);
    let size = digits.len() + 1;
    break_line(sink, page, size)?;
    page.put(sink, digits.as_bytes())?;
    page.put(sink, &[tag])?;
    page.advance(size);
    Ok(())
}

/// A decimal digit.
pub fn digit(number: usize) -> u8
    requires { number < 10 }
    ensures { result ≡ 48 + number }
{
    b'0' + number as u8
}

/// Puts an item on the line, or on the next one if it does not fit. The bytes of a short item are
/// put at once.
pub fn write_item<O: Sink>(
    sink: &mut O,
    page: &mut Page,
    count: usize,
    tag: u8,
) -> Result<(), Failed>
    ensures ok { OnOk result (WritesItem (O.written sink.old) (O.written sink.new) (O.faults sink.old)
        (O.faults sink.new) page.old page.new (run_text (record { count = count; tag = tag }))) }
    ensures err { OnErr result (BreaksInItem (O.written sink.old) (O.written sink.new) (O.faults sink.old)
        (O.faults sink.new) page.old (run_text (record { count = count; tag = tag }))) }
{
    if count == 1 {
        write_bytes(sink, page, &[tag])
    } else if count < 10 {
        write_bytes(sink, page, &[digit(count), tag])
    } else if count < 100 {
        write_bytes(sink, page, &[digit(count / 10), digit(count % 10), tag])
    } else {
        write_long(sink, page, count, tag)
    }
}
