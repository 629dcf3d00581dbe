// Lists of bits, read across.
ghost use Rattle.std.specs.Prelude.{◌≡◌, ◌<◌, All, length, map, IfOk};
ghost use Rattle.std.specs.List.{range_with_len};
ghost use Rattle.streams.specs.Rows.{bits_across};

use lists::List;
use std::alloc::{AllocError, Global};

/// Returns the bit at `place` of each list.
pub fn bits_across(
    alloc: Global,
    lists: &[List<bool>],
    place: usize,
) -> Result<Vec<bool>, AllocError>
    requires { All (λ bits. place < length bits) lists.now }
    ensures { IfOk result (λ column. column.items ≡ bits_across lists.now place) }
{
    let mut column = Vec::with_capacity(alloc, lists.len())?;
    for bits in lists {
        column.push(*bits.get(place))?;
    }
    Ok(column)
}

/// Returns the columns of lists of length `long`, in order.
pub fn columns_of(
    alloc: Global,
    lists: &[List<bool>],
    long: usize,
) -> Result<List<List<bool>>, AllocError>
    requires { All (λ bits. length bits ≡ long) lists.now }
    ensures { IfOk result (λ columns. columns ≡
        map (bits_across lists.now) (range_with_len 0 long)) }
{
    let mut columns = Vec::with_capacity(alloc, long)?;
    for place in 0..long {
        columns.push(List::of(bits_across(alloc, lists, place)?))?;
    }
    Ok(List::of(columns))
}
