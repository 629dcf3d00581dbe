// Where a word is cut.
ghost use Rattle.std.specs.Prelude.{◌≡◌, true, false, position, reverse};
ghost use Rattle.std.specs.List.{before_first, list_any};
ghost use Rattle.std.specs.Option.{MatchOption};
ghost use Rattle.streams.specs.Cuts.{bits_in, is_colon, is_equals_sign, name_after, name_in};

// How many bytes stand after the last `=`.
fn bits_after(word: &[u8]) -> Option<usize>
    ensures { result ≡ position is_equals_sign (reverse word.now) }
{
    word.iter().rev().position(|b| *b == b'=')
}

/// Returns the name before the last `=` of a word, and the bits after it.
pub fn cut(word: &[u8]) -> Option<(&[u8], &[u8])>
    ensures { MatchOption result (list_any is_equals_sign word.now ≡ false)
        (λ parts. (list_any is_equals_sign word.now ≡ true) × (parts.0.now ≡ name_in word.now) ×
        (parts.1.now ≡ bits_in word.now)) }
{
    let count = bits_after(word)?;
    let start = word.len() - count;
    Some((&word[..start - 1], &word[start..]))
}

// The place of the first `:`.
fn colon_in(name: &[u8]) -> Option<usize>
    ensures { result ≡ position is_colon name.now }
{
    name.iter().position(|b| *b == b':')
}

/// Returns what stands before the first `:` of a name, and what stands after it.
pub fn cut_at_colon(name: &[u8]) -> Option<(&[u8], &[u8])>
    ensures { MatchOption result (list_any is_colon name.now ≡ false)
        (λ parts. (list_any is_colon name.now ≡ true) ×
        (parts.0.now ≡ before_first is_colon name.now) × (parts.1.now ≡ name_after name.now)) }
{
    let place = colon_in(name)?;
    Some((&name[..place], &name[place + 1..]))
}
