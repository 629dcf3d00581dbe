// The reader of a text of extended RLE.
ghost use Rattle.std.specs.Prelude.{◌≡◌, ◌⊎◌, ◌*◌, ◌^◌, ◌<◌, ℕ, Some, None, true, length, nat_lt, IfOk, IfErr, MatchResult};
ghost use Rattle.ww_rule.specs.Grid.{Grid};
ghost use Rattle.ww_rule.specs.Patterns.{grid_of};
ghost use Rattle.pattern_reading.specs.declared.faults.RleFaultKind.{RleFaultKind};
ghost use Rattle.pattern_reading.specs.Header.{is_wireworld, header_in, header_line};
ghost use Rattle.pattern_reading.specs.Pattern.{HasRleFault, HasReaderFault, HasLargeBox, ReadsWithinLimit, most_cells};
ghost use Rattle.rle_read.specs.Texts.{header_of};
ghost use Rattle.rle_read.specs.Answers.{IsHeaderAt, IsHeaderFault, HasReadReason};
ghost use Rattle.rle_read.specs.declared.error.RleReadError.TheVariants.{Fault, TooLarge, NoMemory};

use crate::draw_text::draw_text;
use crate::drawing::Drawing;
use crate::error::{RleFault, RleReadError};
use crate::header::{Header, header_in};
use crate::words::after_word;
use pattern_lines::{Line, split_line};
use pattern_reading::RleFaultKind;
use std::alloc::Global;
use ww_rule::Pattern;

// The greatest number of cells in the box of a pattern.
const MOST_CELLS: u128 = 268_435_456;

// The line that is to be the header, and the text after it.
fn split_header(text: &[u8]) -> Result<(Line<'_>, &[u8]), RleFault>
    requires { length text.now < 2 ^ 64 }
    ensures found { IfOk result (λ parts. IsHeaderAt text.now parts) }
    ensures none { IfErr result (λ fault.
        (header_line text.now ≡ None) × HasRleFault text.now fault.kind fault.line
        ) }
{
    let mut rest = text;
    let mut lines = 0;
    while !rest.is_empty() {
        let (line, after) = split_line(lines, rest);
        if !line.is_skipped() {
            return Ok((line, after));
        }
        rest = after;
        lines += 1;
    }
    Err(RleFault {
        kind: RleFaultKind::NoHeader,
        line: lines.max(1),
    })
}

// The header in a line, or the line's fault.
fn read_header(line: Line<'_>) -> Result<Header<'_>, RleFault>
    ensures header { IfOk result (λ header. (header_in line.entry.bytes.now ≡
        Some (header_of header))
        × (is_wireworld (header_of header).rule ≡ true)) }
    ensures fault { IfErr result (λ fault. IsHeaderFault line.entry.bytes.now fault.kind
        × (fault.line ≡ line.entry.number)) }
{
    if after_word(b"x", line.bytes).is_none() {
        return Err(RleFault {
            kind: RleFaultKind::NoHeader,
            line: line.number,
        });
    }
    let Some(header) = header_in(line.bytes) else {
        return Err(RleFault {
            kind: RleFaultKind::BadHeader,
            line: line.number,
        });
    };
    if !header.is_wireworld() {
        return Err(RleFault {
            kind: RleFaultKind::OtherRule,
            line: line.number,
        });
    }
    Ok(header)
}

// Whether a box has more cells than a reader takes.
fn is_too_large(width: u64, height: u64) -> bool
    ensures { result ≡ nat_lt most_cells (width * height) }
{
    u128::from(width) * u128::from(height) > MOST_CELLS
}

// The pattern of a text, or the reason why there is none.
fn pattern_in(alloc: Global, text: &[u8]) -> Result<Pattern, RleReadError>
    ensures pattern { IfOk result (λ pattern. ReadsWithinLimit text.now (grid_of pattern)) }
    ensures refused { IfErr result (HasReadReason text.now) }
{
    let (line, rest) = split_header(text)?;
    let Header { width, height, .. } = read_header(line)?;
    if is_too_large(width, height) {
        return Err(RleReadError::TooLarge { width, height });
    }
    let mut drawing = Drawing::new(alloc, width, height)?;
    draw_text(&mut drawing, line.number, rest)?;
    Ok(Pattern {
        width,
        height,
        rows: drawing.rows,
    })
}

/// Reads the text of a pattern in extended RLE, by Golly's description of it: a header such as
/// `x = 3, y = 1, rule = WireWorld`, and then items such as `3C!`.
///
/// Returns the pattern of the text, or the text's first fault and its line, counted from 1. A box
/// of more than 268435456 cells is refused after the header is read, and before any memory is
/// taken.
pub fn read(alloc: Global, text: &[u8]) -> Result<Pattern, RleReadError>
    ensures pattern { IfOk result (λ pattern. ReadsWithinLimit text.now (grid_of pattern)) }
    ensures refused { IfErr result (HasReadReason text.now) }
    ensures reads { (grid : Grid) → ReadsWithinLimit text.now grid →
        MatchResult result (λ pattern. grid_of pattern ≡ grid) (λ e. e ≡ NoMemory) }
    ensures faulty { (kind : RleFaultKind) (line : ℕ) → HasReaderFault text.now kind line →
        MatchResult result (λ _. ⊥) (λ e. (e ≡ Fault (record { kind = kind; line = line })) ⊎
        (e ≡ NoMemory)) }
    ensures large { (width height : ℕ) → HasLargeBox text.now width height →
        MatchResult result (λ _. ⊥) (λ e. e ≡ TooLarge width height) }
{
    pattern_in(alloc, text)
}
