// The header of a text of extended RLE.
ghost use Rattle.std.specs.Prelude.{◌≡◌, option_map, reverse};
ghost use Rattle.std.specs.Option.{option_copied};
ghost use Rattle.pattern_reading.specs.Numbers.{without_leading_blanks};
ghost use Rattle.pattern_reading.specs.Header.{is_wireworld, rule_name_in, rule_in, header_in};
ghost use Rattle.rle_read.specs.Texts.{header_of};

use crate::words::{after_word, number_at_front, without_leading_blanks};
use pattern_lines::{is_all_blank, is_blank};

/// The parts of a header; the rule's name may be missing.
#[derive(Clone, Copy)]
pub struct Header<'a> {
    pub width: u64,
    pub height: u64,
    pub rule: Option<&'a [u8]>,
}

impl Header<'_> {
    /// Returns whether the rule is Wireworld's, in any case of the letters.
    pub fn is_wireworld(&self) -> bool
        ensures { result ≡ is_wireworld (option_copied self.now.rule) }
    {
        match self.rule {
            None => false,
            Some(name) => name.eq_ignore_ascii_case(b"WireWorld"),
        }
    }
}

// The bytes without the blanks at their end.
fn without_trailing_blanks(bytes: &[u8]) -> &[u8]
    ensures { result.now ≡ reverse (without_leading_blanks (reverse bytes.now)) }
{
    let mut rest = bytes;
    while let [before @ .., last] = rest {
        if !is_blank(*last) {
            break;
        }
        rest = before;
    }
    rest
}

// The rule's name after the header's numbers, which is not empty.
fn rule_name_in(bytes: &[u8]) -> Option<&[u8]>
    ensures { option_copied result ≡ rule_name_in bytes.now }
{
    let after_comma = after_word(b",", bytes)?;
    let after_rule = after_word(b"rule", after_comma)?;
    let after_equals = after_word(b"=", after_rule)?;
    let name = without_trailing_blanks(without_leading_blanks(after_equals));
    if name.is_empty() { None } else { Some(name) }
}

// The end of a header, after its numbers: nothing, or the rule's name.
fn rule_in(bytes: &[u8]) -> Option<Option<&[u8]>>
    ensures { option_map option_copied result ≡ rule_in bytes.now }
{
    if is_all_blank(bytes) {
        return Some(None);
    }
    Some(Some(rule_name_in(bytes)?))
}

/// Returns the header in a line, or `None` if the line does not have the form of one.
pub fn header_in(bytes: &[u8]) -> Option<Header<'_>>
    ensures { option_map header_of result ≡ header_in bytes.now }
{
    let after_x = after_word(b"x", bytes)?;
    let (width, after_width) = number_at_front(after_word(b"=", after_x)?)?;
    let after_comma = after_word(b",", after_width)?;
    let after_y = after_word(b"y", after_comma)?;
    let (height, after_height) = number_at_front(after_word(b"=", after_y)?)?;
    let rule = rule_in(after_height)?;
    Some(Header {
        width,
        height,
        rule,
    })
}
