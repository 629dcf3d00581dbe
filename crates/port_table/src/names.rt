// The names in the fields of a line.
ghost use Rattle.std.specs.Prelude.{◌≡◌, ◌<◌, length, option_map, IfSome, IfOk};
ghost use Rattle.lists.specs.Bytes.{non_empty};
ghost use Rattle.pattern_reading.specs.Escapes.{escape_in, unescaped};
ghost use Rattle.pattern_reading.specs.PortLines.{name_of_field};
ghost use Rattle.port_table.specs.Names.{from_first};

use lists::{Bytes, List, copied};
use pattern_reading::TableVersion;
use std::alloc::{AllocError, Global};

// The byte that two hexadecimal digits stand for, which is no line feed.
fn escape_in(high: u8, low: u8) -> Option<u8>
    ensures { result ≡ escape_in high low }
{
    let high = char::from(high).to_digit(16)?;
    let low = char::from(low).to_digit(16)?;
    let byte = high as u8 * 16 + low as u8;
    if byte == b'\n' { None } else { Some(byte) }
}

// The first byte that a text with escapes stands for, and the text after it.
fn first_byte(text: &[u8]) -> Option<(u8, &[u8])>
    requires some { 0 < length text.now }
    ensures first { unescaped text.now ≡ from_first result }
    ensures shorter { IfSome result (λ first. length first.1.now < length text.now) }
{
    match text {
        [b'%', high, low, rest @ ..] => Some((escape_in(*high, *low)?, rest)),
        [b'%', ..] => None,
        [byte, rest @ ..] => Some((*byte, rest)),
        [] => None,
    }
}

// The bytes that a text with escapes stands for, if each `%` begins one.
fn unescaped(alloc: Global, text: &[u8]) -> Result<Option<Vec<u8>>, AllocError>
    ensures { IfOk result (λ bytes. option_map (λ v. v.items) bytes ≡ unescaped text.now) }
{
    let mut bytes = Vec::new(alloc);
    let mut rest = text;
    while !rest.is_empty() {
        let Some((byte, after)) = first_byte(rest) else {
            return Ok(None);
        };
        bytes.push(byte)?;
        rest = after;
    }
    Ok(Some(bytes))
}

// The bytes, if there is at least one.
fn non_empty(bytes: Bytes) -> Option<Bytes>
    ensures { result ≡ non_empty bytes }
{
    if bytes.len() == 0 { None } else { Some(bytes) }
}

/// Returns the name for which a field stands in a table of a version, or `None` if it stands for
/// none.
pub fn name_of_field(
    alloc: Global,
    version: TableVersion,
    field: &[u8],
) -> Result<Option<Bytes>, AllocError>
    ensures { IfOk result (λ name. name ≡ name_of_field version field.now) }
{
    match version {
        TableVersion::Raw => Ok(non_empty(copied(alloc, field)?)),
        TableVersion::Escaped => {
            let Some(bytes) = unescaped(alloc, field)? else {
                return Ok(None);
            };
            Ok(non_empty(List::of(bytes)))
        }
    }
}
