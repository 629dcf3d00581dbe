// Words and numbers at the beginning of bytes, after blanks.
ghost use Rattle.std.specs.Prelude.{◌≡◌, ◌≤◌, length, option_map};
ghost use Rattle.std.specs.Option.{option_copied};
ghost use Rattle.std.specs.Char.{is_ascii_digit};
ghost use Rattle.std.specs.List.{prefix_len};
ghost use Rattle.pattern_reading.specs.Numbers.{without_leading_blanks, after_word, number_at_front};
ghost use Rattle.rle_read.specs.Texts.{number_and_rest};

use pattern_lines::{is_blank, number_in};

/// Returns the bytes without the blanks at their beginning.
pub fn without_leading_blanks(bytes: &[u8]) -> &[u8]
    ensures { result.now ≡ without_leading_blanks bytes.now }
{
    let mut rest = bytes;
    while let [first, after @ ..] = rest {
        if !is_blank(*first) {
            break;
        }
        rest = after;
    }
    rest
}

/// Returns what follows a word, or `None` if the bytes do not begin with it. Blanks may stand
/// before the word.
pub fn after_word<'a>(word: &[u8], bytes: &'a [u8]) -> Option<&'a [u8]>
    ensures { option_copied result ≡ after_word word.now bytes.now }
{
    without_leading_blanks(bytes).strip_prefix(word)
}

/// Returns how many digits the bytes begin with.
pub fn digits_at_front(bytes: &[u8]) -> usize
    ensures count { result ≡ prefix_len is_ascii_digit bytes.now }
    ensures within { result ≤ length bytes.now }
{
    for (i, byte) in bytes.iter().enumerate() {
        if !byte.is_ascii_digit() {
            return i;
        }
    }
    bytes.len()
}

/// Returns a number and what follows its digits, or `None` if the bytes begin with none. Blanks may
/// stand before the number.
pub fn number_at_front(bytes: &[u8]) -> Option<(u64, &[u8])>
    ensures { option_map number_and_rest result ≡ number_at_front bytes.now }
{
    let bytes = without_leading_blanks(bytes);
    let (digits, rest) = bytes.split_at(digits_at_front(bytes));
    Some((number_in(digits)?, rest))
}
