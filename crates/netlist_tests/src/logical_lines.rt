// Texts and their logical lines, each written as `number:word,word,;`.
use crate::pages::Page;
use blif_lex::{Logical, lines};

fn push_line(page: &mut Page, line: &Logical) {
    page.push_number(line.line);
    page.push(b":");
    for word in line.words.as_slice() {
        page.push(word.as_slice());
        page.push(b",");
    }
    page.push(b";");
}

fn push_lines(page: &mut Page, text: &[u8]) {
    match lines(page.alloc(), text) {
        Ok(lines) => {
            for line in lines.as_slice() {
                push_line(page, line);
            }
            drop(lines);
        }
        Err(_) => page.cut(),
    }
}

// Texts and their logical lines.
const LINES: &[(&[u8], &[u8])] = &[
    (b"", b""),
    (b"\n", b""),
    (b"\\", b""),
    (b"\\\n", b""),
    (b"\\\n\\\n\\", b""),
    (b"a", b"1:a,;"),
    (b"a b\r\nc\r", b"1:a,b,;2:c,;"),
    (b"a\rb\r\r\nc", b"1:a,b,;2:c,;"),
    (b"a\\\nb", b"1:ab,;"),
    (b"a \\\r\n b", b"1:a,b,;"),
    (b"a\\ \t\x0b\x0c\r\nb", b"1:ab,;"),
    (b"a\\b\\\\\nc", b"1:a\\b\\c,;"),
    (b"a # b \\\nc", b"1:a,;2:c,;"),
    (b"a \\ # b\nc", b"1:a,c,;"),
    (b"a\\#\\\nc", b"1:ac,;"),
    (b"\\\n\\\n#\nx", b"4:x,;"),
    (b"\n\n \t\na\\\n\\\nb\n\nc", b"4:ab,;8:c,;"),
    (b"a\\\n#b\nc", b"1:a,;3:c,;"),
    (b"a\x0bb\x0cc\td", b"1:a,b,c,d,;"),
    (b"a\\", b"1:a,;"),
    // only five bytes are blanks
    (
        b"a\0b\x85c\xa0d\x1ce\xff\xe2\x80\x83f",
        b"1:a\0b\x85c\xa0d\x1ce\xff\xe2\x80\x83f,;",
    ),
];

/// Notes it unless lines are joined and cut.
pub fn expect_lines(page: &mut Page) {
    for (text, want) in LINES {
        push_lines(page, text);
        page.expect(want);
    }
}
