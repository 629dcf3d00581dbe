// The path of a place.
ghost use Rattle.std.specs.Prelude.{◌≡◌, ◌++◌, ◌∷◌, flat_map, decimal, IfOk, OnOk};
ghost use Rattle.place_paths.specs.Paths.{path_of};

use itoa::Buffer;
use lists::Bytes;
use std::alloc::{AllocError, Global};

// Adds each number to the end of a text, with a dot before it.
fn push_inner(text: &mut Vec<u8>, numbers: &[u32]) -> Result<(), AllocError>
    ensures { OnOk result (
        text.new.items ≡ text.old.items ++ flat_map (λ number. 46 ∷ decimal number) numbers.now
        ) }
{
    for number in numbers {
        let mut digits = Buffer::new();
        text.push(b'.')?;
        text.extend_from_slice(digits.format(*number).as_bytes())?;
    }
    Ok(())
}

// The numbers of a place, joined by dots.
fn joined(alloc: Global, first: u32, inner: &[u32]) -> Result<Vec<u8>, AllocError>
    ensures { IfOk result (λ text. text.items ≡ path_of (first ∷ inner.now)) }
{
    let mut digits = Buffer::new();
    let mut text = Vec::from_slice(alloc, digits.format(first).as_bytes())?;
    push_inner(&mut text, inner)?;
    Ok(text)
}

/// Returns the path of a place: `-` for that of the main model, and else the place's numbers,
/// joined by dots.
pub fn path_of(alloc: Global, place: &[u32]) -> Result<Bytes, AllocError>
    ensures { IfOk result (λ path. path ≡ path_of place.now) }
{
    let text = match place.split_first() {
        None => Vec::from_slice(alloc, b"-")?,
        Some((first, inner)) => joined(alloc, *first, inner)?,
    };
    Ok(Bytes::of(text))
}
