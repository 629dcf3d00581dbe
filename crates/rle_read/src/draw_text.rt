// The items of a text, drawn line by line.
ghost use Rattle.std.specs.Prelude.{◌≡◌, ◌⊎◌, ◌+◌, ◌^◌, ◌<◌, length, MatchResult};
ghost use Rattle.ww_rule.specs.Grid.{IsGrid};
ghost use Rattle.pattern_reading.specs.Lines.{lines_from, with_line_feeds};
ghost use Rattle.pattern_reading.specs.Items.{items_of_line, items_of_lines};
ghost use Rattle.pattern_reading.specs.declared.faults.RleFaultKind.TheVariants.{NoEnd};
ghost use Rattle.pattern_lines.specs.Lines.{line_of};
ghost use Rattle.rle_read.specs.Drawn.{Drawn, drawn_of, drawn_with, Open, Ended, Fault, reached_of, rle_fault_of};

use crate::drawing::Drawing;
use crate::error::RleFault;
use crate::items::{Item, item_in, split_piece};
use pattern_lines::{Line, split_line};
use pattern_reading::RleFaultKind;

/// The end of a line of items: its own end, or the end of the pattern.
#[derive(Clone, Copy)]
pub enum LineEnd {
    OfLine,
    OfPattern,
}

// Draws the items of a line, up to the end of the pattern or an item at fault.
fn draw_line(drawing: &mut Drawing, line: Line<'_>) -> Result<LineEnd, RleFault>
    requires in_rows { IsGrid drawing.old.width drawing.old.height drawing.old.rows }
    ensures drawn { reached_of result (drawn_of drawing.new)
        ≡ drawn_with (drawn_of drawing.old) (items_of_line (line_of line.entry)) }
    ensures in_rows { IsGrid drawing.new.width drawing.new.height drawing.new.rows }
{
    if line.is_comment() {
        return Ok(LineEnd::OfLine);
    }
    let mut rest = line.bytes;
    while !rest.is_empty() {
        let (piece, after) = split_piece(rest);
        let item = item_in(line.is_ended, piece);
        if let Item::End = item {
            return Ok(LineEnd::OfPattern);
        }
        if let Some(kind) = drawing.item_fault(item) {
            return Err(RleFault {
                kind,
                line: line.number,
            });
        }
        drawing.draw(item);
        rest = after;
    }
    Ok(LineEnd::OfLine)
}

/// Draws the items of a text, up to the end of the pattern. `lines_before` is the number of lines
/// that stand before the text.
pub fn draw_text(drawing: &mut Drawing, lines_before: u64, text: &[u8]) -> Result<(), RleFault>
    requires room { lines_before + length text.now < 2 ^ 64 }
    requires in_rows { IsGrid drawing.old.width drawing.old.height drawing.old.rows }
    ensures { let lines = lines_from (lines_before + 1) (with_line_feeds text.now) in
        let reached = drawn_with (drawn_of drawing.old) (items_of_lines lines) in
        MatchResult result
        (λ _. reached ≡ Ended (drawn_of drawing.new))
        (λ fault. (reached ≡ Fault (rle_fault_of fault)) ⊎
        ((d : Drawn) × (reached ≡ Open d) × (fault.kind ≡ NoEnd) ×
        (fault.line ≡ lines_before + length lines))) }
{
    let mut rest = text;
    let mut lines = lines_before;
    while !rest.is_empty() {
        let (line, after) = split_line(lines, rest);
        if let LineEnd::OfPattern = draw_line(drawing, line)? {
            return Ok(());
        }
        rest = after;
        lines += 1;
    }
    Err(RleFault {
        kind: RleFaultKind::NoEnd,
        line: lines,
    })
}
