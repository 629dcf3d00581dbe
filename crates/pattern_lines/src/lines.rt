// The lines of a text.
ghost use Rattle.std.specs.Prelude.{◌≡◌, ◌+◌, ◌^◌, ◌∷◌, ◌<◌, ◌==◌, not, length};
ghost use Rattle.std.specs.List.{prefix_len};
ghost use Rattle.std.specs.Str.Lines.{strip_carriage_return};
ghost use Rattle.pattern_reading.specs.Lines.{lines_from, with_line_feeds};
ghost use Rattle.pattern_reading.specs.Header.{is_comment, is_skipped};
ghost use Rattle.pattern_lines.specs.Lines.{line_of};

use crate::blanks::is_all_blank;

/// A line without its end, and its number, counted from 1. Only the last line of a text may lack an
/// end.
#[derive(Clone, Copy)]
pub struct Line<'a> {
    pub number: u64,
    pub bytes: &'a [u8],
    pub is_ended: bool,
}

impl Line<'_> {
    /// Returns whether the line is a comment: it begins with `#`.
    pub fn is_comment(self) -> bool
        ensures { result ≡ is_comment (line_of self.entry) }
    {
        match self.bytes {
            [b'#', ..] => true,
            _ => false,
        }
    }

    /// Returns whether the line is skipped before the header: comments are, and lines of blanks.
    pub fn is_skipped(self) -> bool
        ensures { result ≡ is_skipped (line_of self.entry) }
    {
        self.is_comment() || is_all_blank(self.bytes)
    }
}

// The bytes without a carriage return at their end.
fn without_carriage_return(bytes: &[u8]) -> &[u8]
    ensures { result.now ≡ strip_carriage_return bytes.now }
{
    match bytes {
        [before @ .., b'\r'] => before,
        _ => bytes,
    }
}

// How many bytes stand before the first line feed, or how many there are if there is none.
fn bytes_before_feed(text: &[u8]) -> usize
    ensures { result ≡ prefix_len (λ b. not (b == 10)) text.now }
{
    text.iter().take_while(|b| **b != b'\n').count()
}

/// Returns the first line of a text and the text after it. `lines_before` is the number of lines
/// that stand before the text.
pub fn split_line(lines_before: u64, text: &[u8]) -> (Line<'_>, &[u8])
    requires room { lines_before + length text.now < 2 ^ 64 }
    requires some { 0 < length text.now }
    ensures lines { lines_from (lines_before + 1) (with_line_feeds text.now)
        ≡ line_of result.0 ∷ lines_from (lines_before + 1 + 1) (with_line_feeds result.1.now) }
    ensures number { result.0.number ≡ lines_before + 1 }
    ensures shorter { length result.1.now < length text.now }
{
    let number = lines_before + 1;
    let end = bytes_before_feed(text);
    if end == text.len() {
        let line = Line {
            number,
            bytes: text,
            is_ended: false,
        };
        return (line, &[]);
    }
    let line = Line {
        number,
        bytes: without_carriage_return(&text[..end]),
        is_ended: true,
    };
    (line, &text[end + 1..])
}
