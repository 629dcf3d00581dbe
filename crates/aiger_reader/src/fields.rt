// The fields of a line.
ghost use Rattle.std.specs.Prelude.{◌≡◌, ◌==◌, not, map, take, IfOk};
ghost use Rattle.std.specs.List.{prefix_len, before_first, after_first};
ghost use Rattle.aiger_text.specs.Header.{is_separator, header_fields};

use std::alloc::{AllocError, Global};

// How many bytes stand before the first space; all of them, if there is none.
fn bytes_before_space(bytes: &[u8]) -> usize
    ensures { result ≡ prefix_len (λ b. not (b == 32)) bytes.now }
{
    for (i, byte) in bytes.iter().enumerate() {
        if *byte == b' ' {
            return i;
        }
    }
    bytes.len()
}

/// Returns the bytes before and after the first space; without a space, all bytes and none.
pub fn split_word(bytes: &[u8]) -> (&[u8], &[u8])
    ensures word { result.0.now ≡ before_first is_separator bytes.now }
    ensures rest { result.1.now ≡ after_first is_separator bytes.now }
{
    let end = bytes_before_space(bytes);
    if end < bytes.len() {
        (&bytes[..end], &bytes[end + 1..])
    } else {
        (bytes, &[])
    }
}

/// Returns the first six fields of a line; no form has more than five.
pub fn first_fields(alloc: Global, bytes: &[u8]) -> Result<Vec<&[u8]>, AllocError>
    ensures { IfOk result (λ fields. map (λ f. f.now) fields.items ≡
        take 6 (header_fields bytes.now)) }
{
    bytes.split(|b| *b == b' ').take(6).collect(alloc)
}
