// The whole text: the lines of the port table, the header, and the items.
ghost use Rattle.std.specs.Prelude.{◌≡◌, ◌≤◌, ◌<◌, ◌*◌, ◌^◌, ℕ, take, decimal, OnOk, OnErr};
ghost use Rattle.std.specs.Io.KnownBytes.{Appends};
ghost use Rattle.ww_base.specs.Faults.{HasCause};
ghost use Rattle.lane_core.specs.Plans.{IsAdmissible};
ghost use Rattle.pattern_writing.specs.Writer.{grid_of, header_text};
ghost use Rattle.pattern_writing.specs.WrittenText.{IsWritable, pattern_text};
ghost use Rattle.rle_write.specs.Opening.{opening_text};
ghost use Rattle.rle_write.specs.PlanText.{text_of_plan};
ghost use Rattle.rle_write.specs.Taken.{BreaksInText, WritesText};
ghost use Rattle.ww_base.specs.Pages.{column_of};

use crate::blocks::Stretch;
use crate::body::Below;
use crate::pattern_rows::write_rows;
use crate::plan_rows::write_plan_rows;
use grid_assembly::size;
use itoa::Buffer;
use lane_core::Plan;
use pattern_reading::Ports;
use plan_layout::Slot;
use port_writing::write_table;
use ww_base::{Failed, Page, Sink};
use ww_rule::Pattern;

// The greatest number of blocks of a lane that are kept for its rows: 32 columns of cells each.
const KEPT: usize = 32768;

// How many blocks are kept for a drawing of this width: only those that lie wholly within it.
fn kept_blocks(width: u64) -> usize
    ensures room { result ≤ 32768 }
    ensures inside { 32 * result ≤ width }
{
    (width / 32).min(KEPT as u64) as usize
}

// Writes the digits of a number.
fn write_number<O: Sink>(sink: &mut O, page: &mut Page, number: u64) -> Result<(), Failed>
    ensures column { column_of page.new ≡ column_of page.old }
    ensures ok { OnOk result (WritesText (O.written sink.old) (O.written sink.new) (O.faults sink.old)
        (O.faults sink.new) page.old page.new (decimal number)) }
    ensures err { OnErr result (BreaksInText (O.written sink.old) (O.written sink.new) (O.faults sink.old)
        (O.faults sink.new) page.old (decimal number)) }
{
    let mut buffer = Buffer::new();
    let digits = buffer.format(number);
    page.put(sink, digits.as_bytes())
}

// Writes the line with the size of the box and the rule.
fn write_header<O: Sink>(
    sink: &mut O,
    page: &mut Page,
    width: u64,
    height: u64,
) -> Result<(), Failed>
    ensures column { column_of page.new ≡ column_of page.old }
    ensures ok { OnOk result (WritesText (O.written sink.old) (O.written sink.new) (O.faults sink.old)
        (O.faults sink.new) page.old page.new (header_text width height)) }
    ensures err { OnErr result (BreaksInText (O.written sink.old) (O.written sink.new) (O.faults sink.old)
        (O.faults sink.new) page.old (header_text width height)) }
{
    page.put(sink, b"x = ")?;
    write_number(sink, page, width)?;
    page.put(sink, b", y = ")?;
    write_number(sink, page, height)?;
    page.put(sink, b", rule = WireWorld\n")
}

// Writes the lines of the port table and the header.
fn write_opening<O: Sink>(
    sink: &mut O,
    page: &mut Page,
    ports: &Ports,
    width: u64,
    height: u64,
) -> Result<(), Failed>
    ensures fits { (width < 2 ^ 64) × (height < 2 ^ 64) }
    ensures column { column_of page.new ≡ column_of page.old }
    ensures ok { OnOk result (WritesText (O.written sink.old) (O.written sink.new) (O.faults sink.old)
        (O.faults sink.new) page.old page.new (opening_text ports.now width height)) }
    ensures err { OnErr result (BreaksInText (O.written sink.old) (O.written sink.new) (O.faults sink.old)
        (O.faults sink.new) page.old (opening_text ports.now width height)) }
{
    write_table(sink, page, ports)?;
    write_header(sink, page, width, height)
}

/// Writes the pattern of an admissible plan in extended RLE (`.`, `A`, `B` and `C` for the states,
/// as Golly describes it for rules of several states), after the lines of its port table. If a
/// write fails, a prefix of the text has been written. It takes no memory, and holds no pattern.
pub fn write<O: Sink>(plan: &Plan, ports: &Ports, sink: &mut O) -> Result<(), Failed>
    requires { IsAdmissible plan.now }
    ensures ok { OnOk result (
        Appends (O.written sink.old) (O.written sink.new)
        (text_of_plan plan.now ports.now)) }
    ensures front { OnErr result ((n : ℕ) ×
        Appends (O.written sink.old) (O.written sink.new)
        (take n (text_of_plan plan.now ports.now))) }
    ensures cause { HasCause (O.faults sink.old) (O.faults sink.new) result }
{
    let mut page = Page::new();
    let (width, height) = size(plan);
    write_opening(sink, &mut page, ports, width, height)?;
    let mut blocks = [Stretch {
        slot: Slot::Nothing,
        motif: 0,
        count: 0,
        reach: 0,
        below: Below {
            above: 0,
            until: 0,
            next: None,
        },
    }; KEPT];
    let kept = &mut blocks[..kept_blocks(width)];
    write_plan_rows(sink, &mut page, plan, kept, width, height)?;
    page.flush(sink)
}

/// Writes a pattern in extended RLE, after the lines of its port table, as `write` writes that of a
/// plan. If a write fails, a prefix of the text has been written. It takes no memory.
///
/// The pattern is writable: so the text reads as the pattern and its ports if their table is sound
/// and their cells lie in the pattern's box.
pub fn write_pattern<O: Sink>(pattern: &Pattern, ports: &Ports, sink: &mut O) -> Result<(), Failed>
    ensures writable { IsWritable (grid_of pattern.now) }
    ensures ok { OnOk result (
        Appends (O.written sink.old) (O.written sink.new)
        (pattern_text (grid_of pattern.now) ports.now)) }
    ensures front { OnErr result ((n : ℕ) ×
        Appends (O.written sink.old) (O.written sink.new)
        (take n (pattern_text (grid_of pattern.now) ports.now))) }
    ensures cause { HasCause (O.faults sink.old) (O.faults sink.new) result }
{
    let mut page = Page::new();
    write_opening(sink, &mut page, ports, pattern.width, pattern.height)?;
    write_rows(sink, &mut page, &pattern.rows)?;
    page.flush(sink)
}
