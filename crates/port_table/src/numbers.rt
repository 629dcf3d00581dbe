// Paths in the fields of a line.
ghost use Rattle.std.specs.Prelude.{◌≡◌, ◌==◌};
ghost use Rattle.std.specs.Option.{option_copied};
ghost use Rattle.std.specs.List.{list_all, slice_split};
ghost use Rattle.std.specs.Str.{byte};
ghost use Rattle.pattern_reading.specs.PortLines.{is_path_number, path_in};

use pattern_lines::number_in;

// Whether bytes write a number without leading zeros.
fn is_path_number(digits: &[u8]) -> bool
    ensures { result ≡ is_path_number digits.now }
{
    number_in(digits).is_some() && (digits.len() == 1 || digits[0] != b'0')
}

// Whether bytes are numbers without leading zeros, joined by single dots.
fn are_path_numbers(field: &[u8]) -> bool
    ensures { result ≡ list_all is_path_number (slice_split (λ b. b == byte ".") field.now) }
{
    field.split(|b| *b == b'.').all(is_path_number)
}

/// Returns the field as a path, or `None` if it is none. A path is `-`, or numbers without leading
/// zeros, joined by single dots.
pub fn path_in(field: &[u8]) -> Option<&[u8]>
    ensures { option_copied result ≡ path_in field.now }
{
    if field == b"-".as_slice() || are_path_numbers(field) {
        Some(field)
    } else {
        None
    }
}
