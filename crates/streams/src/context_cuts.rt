// Names that begin with the number of a context.
ghost use Rattle.std.specs.Prelude.{◌≡◌, ◌&&◌, ◌++◌, ◌∷◌, nat_lt, true, false, decimal, IfOk};
ghost use Rattle.std.specs.Bool.{then_some};
ghost use Rattle.std.specs.Char.{is_ascii_digit};
ghost use Rattle.std.specs.List.{list_all};
ghost use Rattle.std.specs.Option.{MatchOption};
ghost use Rattle.std.specs.Str.{byte};
ghost use Rattle.std.specs.Str.Parse.{digits_value};
ghost use Rattle.streams.specs.Cuts.{context_named, context_of, has_context, is_unpadded_number, is_unpadded, name_after, names_context, with_context, without_context};

use crate::cuts::cut_at_colon;
use itoa::Buffer;
use std::alloc::{AllocError, Global};

// Whether the digits begin with no 0, except where 0 is the only digit.
fn is_unpadded(digits: &[u8]) -> bool
    ensures { result ≡ is_unpadded digits.now }
{
    digits.len() == 1 || (1 < digits.len() && digits[0] != b'0')
}

// Whether all bytes are decimal digits.
fn are_digits(bytes: &[u8]) -> bool
    ensures { result ≡ list_all is_ascii_digit bytes.now }
{
    bytes.iter().all(|b| b.is_ascii_digit())
}

// Whether bytes are decimal digits without leading zeros.
fn is_unpadded_number(bytes: &[u8]) -> bool
    ensures { result ≡ is_unpadded_number bytes.now }
{
    are_digits(bytes) && is_unpadded(bytes)
}

// The number that digits write, if it is below a bound.
fn number_below(digits: &[u8], bound: u64) -> Option<u64>
    requires { list_all is_ascii_digit digits.now ≡ true }
    ensures { result ≡ then_some (nat_lt (digits_value 10 digits.now) bound)
        (digits_value 10 digits.now) }
{
    let limit = u128::from(bound);
    let mut number: u128 = 0;
    for digit in digits {
        number = number * 10 + u128::from(*digit - b'0');
        if number >= limit {
            return None;
        }
    }
    if number < limit {
        Some(number as u64)
    } else {
        None
    }
}

// The number of a context, below `contexts`, if the bytes are that number without leading zeros.
fn context_in(bytes: &[u8], contexts: u64) -> Option<u64>
    ensures { result ≡ then_some (is_unpadded_number bytes.now &&
        nat_lt (digits_value 10 bytes.now) contexts) (digits_value 10 bytes.now) }
{
    if is_unpadded_number(bytes) {
        number_below(bytes, contexts)
    } else {
        None
    }
}

/// Returns the number of a context, below `contexts`, that stands before the first `:` of a name,
/// and what stands after the `:`. The number stands there even if there is one context.
pub fn cut_at_context(name: &[u8], contexts: u64) -> Option<(u64, &[u8])>
    ensures { MatchOption result (has_context contexts name.now ≡ false)
        (λ parts. (has_context contexts name.now ≡ true) × (parts.0 ≡ context_of name.now) ×
        (parts.1.now ≡ name_after name.now)) }
{
    let (number, rest) = cut_at_colon(name)?;
    let context = context_in(number, contexts)?;
    Some((context, rest))
}

/// Returns the context of a name, and the name without it. With one context the name stands alone,
/// and with more the number of its context and a `:` stand before it. `None` comes if there are
/// several contexts, or none, and the name does not begin with the number of a context and a `:`.
pub fn cut_if_several(name: &[u8], contexts: u64) -> Option<(u64, &[u8])>
    ensures { MatchOption result (names_context contexts name.now ≡ false)
        (λ parts. (names_context contexts name.now ≡ true) ×
        (parts.0 ≡ context_named contexts name.now) ×
        (parts.1.now ≡ without_context contexts name.now)) }
{
    if contexts == 1 {
        Some((0, name))
    } else {
        cut_at_context(name, contexts)
    }
}

// A name after the number of a context and a `:`.
fn numbered(alloc: Global, context: u64, name: &[u8]) -> Result<Vec<u8>, AllocError>
    ensures { IfOk result (λ text. text.items ≡ decimal context ++ byte ":" ∷ name.now) }
{
    let mut digits = Buffer::new();
    let mut text = Vec::from_slice(alloc, digits.format(context).as_bytes())?;
    text.push(b':')?;
    text.extend_from_slice(name)?;
    Ok(text)
}

/// Returns a name as it is written for a context: alone if there is one context, and else after the
/// context's number and a `:`.
pub fn with_context(
    alloc: Global,
    contexts: u64,
    context: u64,
    name: &[u8],
) -> Result<Vec<u8>, AllocError>
    ensures { IfOk result (λ text. text.items ≡ with_context contexts context name.now) }
{
    if contexts == 1 {
        name.to_vec(alloc)
    } else {
        numbered(alloc, context, name)
    }
}
