// The lines and numbers of small texts.
use crate::pages::Page;
use pattern_lines::{number_in, split_line};

// Texts, the bytes of their first lines, whether these lines have an end, and what follows them.
const LINES: &[(&[u8], &[u8], bool, &[u8])] = &[
    (b"3C!", b"3C!", false, b""),
    (b"\n3C!", b"", true, b"3C!"),
    (b"#C one\r\n\r\n", b"#C one", true, b"\r\n"),
    (b"3C\r!\n", b"3C\r!", true, b""),
    (b"3C!\r", b"3C!\r", false, b""),
    (b"3C!\r\r\n", b"3C!\r", true, b""),
];

// Whether `split_line` cuts these bytes as line 7 from the text, and leaves this rest.
fn is_cut(text: &[u8], bytes: &[u8], is_ended: bool, after: &[u8]) -> bool {
    if text.is_empty() || text.len() >= 100 {
        return false;
    }
    let (line, rest) = split_line(6, text);
    line.number == 7 && line.bytes == bytes && line.is_ended == is_ended && rest == after
}

// Texts, and the numbers that they spell in digits.
const NUMBERS: &[(&[u8], Option<u64>)] = &[
    (b"0", Some(0)),
    (b"007", Some(7)),
    (b"18446744073709551615", Some(18_446_744_073_709_551_615)),
    (
        b"000018446744073709551615",
        Some(18_446_744_073_709_551_615),
    ),
    (b"18446744073709551616", None),
    (b"", None),
    (b"+7", None),
    (b"7 ", None),
];

fn lines_are_cut() -> bool {
    let mut is_so = true;
    for (text, bytes, is_ended, after) in LINES {
        is_so &= is_cut(text, bytes, *is_ended, after);
    }
    is_so
}

fn numbers_are_read() -> bool {
    let mut is_so = true;
    for (digits, number) in NUMBERS {
        is_so &= number_in(digits) == *number;
    }
    is_so
}

/// Notes it unless lines are cut and numbers are read.
pub fn expect_lines(page: &mut Page) {
    page.expect_holds(b"the lines", lines_are_cut());
    page.expect_holds(b"the numbers", numbers_are_read());
}
