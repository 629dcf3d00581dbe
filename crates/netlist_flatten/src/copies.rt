// Copies of words and rows.
ghost use Rattle.std.specs.Prelude.{◌≡◌, IfOk};

use lists::{Bytes, List, copied};
use std::alloc::{AllocError, Global};

/// Copies a place.
pub fn copied_place(alloc: Global, place: &[u32]) -> Result<List<u32>, AllocError>
    ensures { IfOk result (λ copy. copy ≡ place.now) }
{
    Ok(List::of(place.to_vec(alloc)?))
}

/// Copies rows.
pub fn copied_rows(alloc: Global, rows: &[Bytes]) -> Result<List<Bytes>, AllocError>
    ensures { IfOk result (λ copy. copy ≡ rows.now) }
{
    let mut copies = Vec::with_capacity(alloc, rows.len())?;
    for row in rows {
        copies.push(copied(alloc, row.as_slice())?)?;
    }
    Ok(List::of(copies))
}
