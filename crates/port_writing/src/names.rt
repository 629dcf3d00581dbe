// Names with escapes.
ghost use Rattle.std.specs.Prelude.{◌≡◌, ◌<◌, ℕ, List, true, ◌++◌, OnOk, OnErr};
ghost use Rattle.std.specs.Fmt.{digit_glyph};
ghost use Rattle.pattern_reading.specs.Escapes.{is_plain_in_name, escaped_byte};
ghost use Rattle.pattern_reading.specs.Spelling.{escaped_name};
ghost use Rattle.ww_base.specs.Pages.{held, column_of};
ghost use Rattle.ww_base.specs.Progress.{Wrote, Broke};

use ww_base::{Failed, Page, Sink};

// Whether a byte stands for itself in a name.
fn is_plain_in_name(byte: u8) -> bool
    ensures { result ≡ is_plain_in_name byte }
{
    byte.is_ascii_graphic() && byte != b'%'
}

// The hexadecimal digit of a number, in upper case.
fn hex_digit(n: u8) -> u8
    requires { n < 16 }
    ensures { result ≡ digit_glyph true n }
{
    if n < 10 { b'0' + n } else { b'A' + (n - 10) }
}

fn put_byte<O: Sink>(sink: &mut O, page: &mut Page, byte: u8) -> Result<(), Failed>
    ensures column { column_of page.new ≡ column_of page.old }
    ensures ok { OnOk result ((rest : List ℕ) →
        Wrote (O.written sink.old) (O.written sink.new) (O.faults sink.old) (O.faults sink.new)
        (held page.old ++ (escaped_byte is_plain_in_name byte ++ rest)) (held page.new ++ rest)) }
    ensures err { OnErr result ((rest : List ℕ) →
        Broke (O.written sink.old) (O.written sink.new) (O.faults sink.old) (O.faults sink.new)
        (held page.old ++ (escaped_byte is_plain_in_name byte ++ rest))) }
{
    if is_plain_in_name(byte) {
        return page.put(sink, &[byte]);
    }
    page.put(sink, &[b'%', hex_digit(byte / 16), hex_digit(byte % 16)])
}

/// Puts a name on a page, with an escape for each byte that is not plain.
pub fn put_name<O: Sink>(sink: &mut O, page: &mut Page, name: &[u8]) -> Result<(), Failed>
    ensures column { column_of page.new ≡ column_of page.old }
    ensures ok { OnOk result ((rest : List ℕ) →
        Wrote (O.written sink.old) (O.written sink.new) (O.faults sink.old) (O.faults sink.new)
        (held page.old ++ (escaped_name name.now ++ rest)) (held page.new ++ rest)) }
    ensures err { OnErr result ((rest : List ℕ) →
        Broke (O.written sink.old) (O.written sink.new) (O.faults sink.old) (O.faults sink.new)
        (held page.old ++ (escaped_name name.now ++ rest))) }
{
    for byte in name {
        put_byte(sink, page, *byte)?;
    }
    Ok(())
}
