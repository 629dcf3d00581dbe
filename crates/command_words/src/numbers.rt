// Numbers among the words.
ghost use Rattle.std.specs.Prelude.{◌≡◌, ◌≤◌, IfSome};
ghost use Rattle.std.specs.List.{list_all};
ghost use Rattle.std.specs.Char.{is_ascii_digit};
ghost use Rattle.command_words.specs.Numbers.{number_between};

// Whether all bytes of the text are decimal digits.
fn has_only_digits(text: &str) -> bool
    ensures { result ≡ list_all is_ascii_digit text.now }
{
    let bytes = text.as_bytes();
    for byte in bytes {
        if !byte.is_ascii_digit() {
            return false;
        }
    }
    true
}

/// Returns the number that the text writes in decimal digits, without a sign, if it lies between
/// the bounds.
pub fn number_between(text: &str, least: u64, most: u64) -> Option<u64>
    ensures value { result ≡ number_between least most text.now }
    ensures bounds { IfSome result (λ number. (least ≤ number) × (number ≤ most)) }
{
    if !has_only_digits(text) {
        return None;
    }
    let number = text.parse::<u64>().ok()?;
    if least <= number && number <= most {
        Some(number)
    } else {
        None
    }
}
