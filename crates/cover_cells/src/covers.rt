// A cover as cells: a constant, one cell, cells that a search found, or its rows.
ghost use Rattle.std.specs.Prelude.{◌≡◌, ◌==◌, [], ◌⊎◌, ◌≤◌, min, true, length, IsTrue, IfOk, IfSome, Some};
ghost use Rattle.std.specs.List.{list_any};
ghost use Rattle.cell_core.specs.Meaning.{bit_in};
ghost use Rattle.cell_core.specs.Sources.{is_one, reads_one, read_one};
ghost use Rattle.cell_sharing.specs.Grown.{HasSources, bits_of, Answers};
ghost use Rattle.cell_meaning.specs.Mapped.{IsCell};
ghost use Rattle.cell_meaning.specs.Needs.{has_no_positive};
ghost use Rattle.cover_cells.specs.Covers.{some_is_one, CoverNeedsOne, AnswersCover, most_cells_of_cover};
ghost use Rattle.cover_cells.specs.Placed.{ReadsOne};
ghost use Rattle.cell_meaning.specs.Singles.{constant_source, single_cell};
ghost use Rattle.cell_core.specs.declared.cells.Cell.{Cell};
ghost use Rattle.cell_core.specs.declared.cells.Src.{Src};
ghost use Rattle.cover_cells.specs.Suits.{Suits, StandsAlone, ReadsOneRoot};

use crate::placed::{place, relocated};
use crate::rows::{is_product, map_rows};
use crate::search::{Found, search};
use crate::singles::{constant_source, single_cell};
use crate::words::{computes, rows_word};
use cell_core::{Cell, CellError, CellList, Src};
use cell_sharing::{Places, share};
use lists::Bytes;
use netlist_core::rows_weight;
use std::alloc::Global;

// Whether some of the cells reads constant 1.
fn read_one(cells: &[Cell]) -> bool
    ensures { result ≡ read_one cells.now }
{
    cells.iter().any(|cell| cell.reads_one())
}

// Whether the row has a `1`.
fn has_positive(row: &[u8]) -> bool
    ensures { result ≡ list_any (λ character. character == 49) row.now }
{
    row.iter().any(|character| *character == b'1')
}

// Whether the row has no `1` under the sources.
fn has_no_positive(count: usize, row: &[u8]) -> bool
    ensures { result ≡ has_no_positive count row.now }
{
    !has_positive(&row[..count.min(row.len())])
}

// Whether constant 1 is among the sources.
fn some_is_one(sources: &[Src]) -> bool
    ensures { result ≡ some_is_one sources.now }
{
    sources.iter().any(|src| src.is_one())
}

// Whether a row has no `1` under so many sources.
fn some_lacks_positive(count: usize, rows: &[Bytes]) -> bool
    ensures { result ≡ list_any (has_no_positive count) rows.now }
{
    rows.iter()
        .any(|row| has_no_positive(count, row.as_slice()))
}

// Whether constant 1 may be used for the cover.
fn needs_one(sources: &[Src], rows: &[Bytes], on: bool) -> bool
    ensures { IsTrue result → CoverNeedsOne sources.now rows.now on }
{
    if some_is_one(sources) || some_lacks_positive(sources.len(), rows) {
        return true;
    }
    if on {
        return false;
    }
    !rows.is_empty()
}

// How many cells the cover takes at most, or the greatest u64 if it is more. The weight of a product
// is that of its literals, one for the cover and one for its row.
fn most_cells_of_cover(rows: &[Bytes], on: bool) -> u64
    ensures { result ≡ min (most_cells_of_cover rows.now on) u64.MAX }
{
    let weight = rows_weight(rows);
    if !is_product(rows, on) {
        return weight.saturating_mul(2);
    }
    weight
        .saturating_sub(rows.len() as u64 + 1)
        .saturating_mul(2)
}

// Whether what was found is no larger than it may be, and uses constant 1 only if it may.
fn is_small(found: &Found, sources: &[Src], rows: &[Bytes], on: bool) -> bool
    ensures few { IsTrue result → length found.now.cells ≤ most_cells_of_cover rows.now on }
    ensures one { IsTrue result → ReadsOneRoot found.now → CoverNeedsOne sources.now rows.now on }
{
    if found.cells.len() as u64 > most_cells_of_cover(rows, on) {
        return false;
    }
    if read_one(found.cells.as_slice()) {
        return needs_one(sources, rows, on);
    }
    if found.root.is_one() {
        return needs_one(sources, rows, on);
    }
    true
}

// Cells for a cover of at most six nets, if the search finds what suits.
fn suiting(
    alloc: Global,
    sources: &[Src],
    rows: &[Bytes],
    on: bool,
) -> Result<Option<Found>, CellError>
    ensures { IfOk result (λ some. IfSome some (Suits sources.now rows.now on)) }
{
    let nets = sources.len();
    if nets > 6 {
        return Ok(None);
    }
    let table = rows_word(rows, on, nets);
    let found = search(alloc, table)?;
    if !is_small(&found, sources, rows, on) {
        return Ok(None);
    }
    if !computes(alloc, found.cells.as_slice(), found.root, nets, table)? {
        return Ok(None);
    }
    Ok(Some(found))
}

// Puts what was found into the list, and returns its source there.
fn put(
    list: &mut CellList,
    places: &mut Places,
    alloc: Global,
    sources: &[Src],
    found: &Found,
) -> Result<Src, CellError>
    requires there { HasSources list.old sources.now }
    requires alone { StandsAlone (length sources.now) found.now }
    ensures { IfOk result (λ src.
        Answers list.old list.new (length found.now.cells)
        (ReadsOne sources.now found.now.cells ⊎ (is_one found.now.root ≡ true)) src (λ inputs state.
        bit_in found.now.cells (bits_of list.old sources.now inputs state) [] found.now.root)) }
{
    let made = place(list, places, alloc, sources, found.cells.as_slice())?;
    Ok(relocated(found.root, sources, &made))
}

/// Adds cells for a cover, and returns the source that has its value. `sources` are those of the
/// cover's nets, in order; `rows` and `on` are as in `Cover`.
pub fn map_cover(
    list: &mut CellList,
    places: &mut Places,
    alloc: Global,
    sources: &[Src],
    rows: &[Bytes],
    on: bool,
) -> Result<Src, CellError>
    requires { HasSources list.old sources.now }
    ensures value { IfOk result (AnswersCover list.old list.new sources.now rows.now on) }
    ensures single { IfOk result (λ src. (cell : Cell) →
        single_cell sources.now rows.now on ≡ Some cell →
        IsCell list.new src cell) }
    ensures constant { IfOk result (λ src. (constant : Src) →
        constant_source (length sources.now) rows.now on ≡ Some constant →
        src ≡ constant) }
{
    if let Some(src) = constant_source(sources.len(), rows, on) {
        return Ok(src);
    }
    if let Some(cell) = single_cell(sources, rows, on) {
        return add_single(list, places, alloc, sources, rows, on, cell);
    }
    match suiting(alloc, sources, rows, on)? {
        Some(found) => put(list, places, alloc, sources, &found),
        None => map_rows(list, places, alloc, sources, rows, on),
    }
}

// Adds the one cell of a cover.
fn add_single(
    list: &mut CellList,
    places: &mut Places,
    alloc: Global,
    sources: &[Src],
    rows: &[Bytes],
    on: bool,
    cell: Cell,
) -> Result<Src, CellError>
    requires there { HasSources list.old sources.now }
    requires single { single_cell sources.now rows.now on ≡ Some cell }
    ensures value { IfOk result (AnswersCover list.old list.new sources.now rows.now on) }
    ensures alone { IfOk result (λ src. IsCell list.new src cell) }
{
    share(list, places, alloc, cell)
}
