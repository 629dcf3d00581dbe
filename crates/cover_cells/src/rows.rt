// A cover by its rows: products of columns, and their sum.
ghost use Rattle.std.specs.Prelude.{ℕ, ◌≡◌, ◌≢◌, ◌<◌, ◌≤◌, ◌*◌, ◌⊎◌, ◌&&◌, true, ◌∷◌, [], IfOk, length, slice_index};
ghost use Rattle.netlist_core.specs.OwnWeight.{literals};
ghost use Rattle.netlist_meaning.specs.CoverValue.{fits};
ghost use Rattle.cell_core.specs.Sources.{is_one};
ghost use Rattle.cell_core.specs.Meaning.{bit_in};
ghost use Rattle.cell_sharing.specs.Grown.{HasSource, HasSources, Answers};
ghost use Rattle.cover_cells.specs.Covers.{start_of, is_product, AnswersRow, AnswersRows, AnswersCover};

use cell_core::{CellError, CellList, Src};
use cell_sharing::{Places, and, and_not, or};
use lists::Bytes;
use std::alloc::Global;

// The place of the first `1`, or the length.
fn first_positive(row: &[u8]) -> usize
    ensures within { result ≤ length row.now }
    ensures before { (k : ℕ) → k < result → slice_index row.now k ≢ 49 }
    ensures found { result < length row.now → slice_index row.now result ≡ 49 }
{
    for (i, character) in row.iter().enumerate() {
        if *character == b'1' {
            return i;
        }
    }
    row.len()
}

// The source at the place, or constant 1 if it is not among the first so many.
fn start(sources: &[Src], first: usize, width: usize) -> Src
    requires { width ≤ length sources.now }
    ensures { result ≡ start_of sources.now first width }
{
    if first < width {
        sources[first]
    } else {
        Src::One
    }
}

// A source for the product with one more column.
fn with_column(
    list: &mut CellList,
    places: &mut Places,
    alloc: Global,
    product: Src,
    source: Src,
    character: u8,
) -> Result<Src, CellError>
    requires first { HasSource list.old product }
    requires second { HasSource list.old source }
    ensures { IfOk result (λ src.
        Answers list.old list.new (2 * literals (character ∷ []))
        ((is_one product ≡ true) ⊎ (is_one source ≡ true)) src (λ inputs state.
        bit_in list.old.cells inputs state product &&
        fits character (bit_in list.old.cells inputs state source))) }
{
    match character {
        b'0' => and_not(list, places, alloc, product, source),
        b'1' => and(list, places, alloc, product, source),
        _ => Ok(product),
    }
}

// The product of a row: from its first positive literal, or from constant 1.
fn product(
    list: &mut CellList,
    places: &mut Places,
    alloc: Global,
    sources: &[Src],
    row: &[u8],
) -> Result<Src, CellError>
    requires { HasSources list.old sources.now }
    ensures { IfOk result (AnswersRow list.old list.new sources.now row.now) }
{
    let first = first_positive(row);
    let width = row.len().min(sources.len());
    let start = start(sources, first, width);
    let mut product = start;
    for i in 0..width {
        if i != first {
            product = with_column(list, places, alloc, product, sources[i], row[i])?;
        }
    }
    Ok(product)
}

// The sum of the products of the rows.
fn sum(
    list: &mut CellList,
    places: &mut Places,
    alloc: Global,
    sources: &[Src],
    rows: &[Bytes],
) -> Result<Src, CellError>
    requires { HasSources list.old sources.now }
    ensures { IfOk result (AnswersRows list.old list.new sources.now rows.now) }
{
    let mut sum = Src::Zero;
    for row in rows {
        let product = product(list, places, alloc, sources, row.as_slice())?;
        sum = or(list, places, alloc, sum, product)?;
    }
    Ok(sum)
}

/// Returns whether a cover has no rows, or one that ends in `1`.
pub fn is_product(rows: &[Bytes], on: bool) -> bool
    ensures { result ≡ is_product rows.now on }
{
    on && rows.len() < 2
}

// The product of the first row, or constant 0 if there is none.
fn first_product(
    list: &mut CellList,
    places: &mut Places,
    alloc: Global,
    sources: &[Src],
    rows: &[Bytes],
) -> Result<Src, CellError>
    requires there { HasSources list.old sources.now }
    requires few { length rows.now < 2 }
    ensures { IfOk result (AnswersCover list.old list.new sources.now rows.now true) }
{
    match rows.first() {
        None => Ok(Src::Zero),
        Some(row) => product(list, places, alloc, sources, row.as_slice()),
    }
}

/// Adds cells for a cover row by row, and returns the source that has its value.
pub fn map_rows(
    list: &mut CellList,
    places: &mut Places,
    alloc: Global,
    sources: &[Src],
    rows: &[Bytes],
    on: bool,
) -> Result<Src, CellError>
    requires { HasSources list.old sources.now }
    ensures { IfOk result (AnswersCover list.old list.new sources.now rows.now on) }
{
    if is_product(rows, on) {
        return first_product(list, places, alloc, sources, rows);
    }
    let sum = sum(list, places, alloc, sources, rows)?;
    if on || rows.is_empty() {
        return Ok(sum);
    }
    and_not(list, places, alloc, Src::One, sum)
}
