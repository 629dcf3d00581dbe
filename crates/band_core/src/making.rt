// Bands of a pattern at generation 0.
ghost use Rattle.ww_rule.specs.Due.{AreInOrderFrom};
ghost use Rattle.std.specs.Prelude.{◌≡◌, ◌+◌, ◌-◌, ◌*◌, ◌/◌, ◌<◌, ◌≤◌, ◌^◌, ◌==◌, ℕ, List, [], length, filter, drop, replicate, All, IfOk};
ghost use Rattle.lists.specs.Items.{list_at};
ghost use Rattle.ww_rule.specs.Wireworld.{Plane, Due, driven, injected};
ghost use Rattle.ww_rule.specs.Grid.{plane_of};
ghost use Rattle.ww_rule.specs.Injections.{due_of_list};
ghost use Rattle.band_core.specs.Bands.{bands_in};
ghost use Rattle.band_core.specs.Band.{AllShow, AreBands, AreDueIn, AreInRows, IsBand, ShowsBand, generations_of};

use crate::band::{Band, due_count, inject};
use band_rows::Field;
use lists::List;
use std::alloc::{AllocError, Global};
use std::mem;
use ww_rule::{CellRows, Injection};

// `count` empty lists.
fn empty_lists(alloc: Global, count: usize) -> Result<Vec<List<Injection>>, AllocError>
    ensures many { IfOk result (λ lists. length lists.items ≡ count) }
    ensures empty { IfOk result (λ lists. (b : ℕ) → b < count → list_at lists.items b ≡ []) }
{
    let mut lists = Vec::with_capacity(alloc, count)?;
    for b in 0..count {
        lists.push(List::of(Vec::new(alloc)))?;
    }
    Ok(lists)
}

// The injections of each band, in their order, for `count` bands of this height.
fn shares(
    alloc: Global,
    injections: &[Injection],
    height: usize,
    count: usize,
) -> Result<Vec<List<Injection>>, AllocError>
    requires height { 0 < height }
    requires inside { All (λ i. i.y / height < count) injections.now }
    ensures many { IfOk result (λ shares. length shares.items ≡ count) }
    ensures each { IfOk result (λ shares.
        (b : ℕ)
        → b < count
        → list_at shares.items b ≡ filter (λ i. i.y / height == b) injections.now
        ) }
{
    let mut shares = empty_lists(alloc, count)?;
    for injection in injections {
        let b = injection.y as usize / height;
        let mut share = mem::replace(&mut shares[b], List::of(Vec::new(alloc))).into_vec();
        share.push(*injection)?;
        shares[b] = List::of(share);
    }
    Ok(shares)
}

// The band of `many` rows of cells from row y on, at generation 0, with its own injections.
fn begin_band(
    alloc: Global,
    cells: &CellRows,
    y: usize,
    many: usize,
    columns: usize,
    injections: Vec<Injection>,
) -> Result<Band, AllocError>
    requires some { 0 < many }
    requires few { length cells.now < 2 ^ 63 }
    requires within { y + many ≤ length cells.now }
    requires wide { All (λ row. length row ≤ 64 * columns) cells.now }
    requires inside { AreInRows columns y many injections.items }
    requires in_order { AreInOrderFrom 0 injections.items }
    ensures is { IfOk result (λ band. IsBand columns y many band) }
    ensures begun { IfOk result (λ band. band.generation ≡ 0) }
    ensures shows { IfOk result (λ band.
        (e : ℕ → Plane) (due : Due)
        → e 0 ≡ injected (due 0) (plane_of cells.now)
        → AreDueIn injections.items due y many
        → ShowsBand e due y many band
        ) }
{
    let mut field = Field::of_cells(alloc, cells, y, many, columns)?;
    let done = due_count(0, &injections);
    inject(&mut field, y, &injections[..done]);
    Ok(Band {
        field,
        generation: 0,
        injections,
        done,
    })
}

/// Makes the bands of rows of cells at generation 0.
pub fn begin_bands(
    alloc: Global,
    rows: &CellRows,
    injections: &[Injection],
    height: usize,
    columns: usize,
) -> Result<Vec<Band>, AllocError>
    requires height { 0 < height }
    requires low { height < 2 ^ 32 }
    requires long { All (λ row. length row ≤ 64 * columns) rows.now }
    requires inside { AreInRows columns 0 (length rows.now) injections.now }
    requires in_order { AreInOrderFrom 0 injections.now }
    ensures bands { IfOk result (λ bands. AreBands columns height (length rows.now) bands.items) }
    ensures begun { IfOk result (λ bands.
        generations_of bands.items ≡ replicate (bands_in (length rows.now) height) 0
        ) }
    ensures shows { IfOk result (λ bands.
        AllShow (
        driven (due_of_list injections.now) (plane_of rows.now)
        ) (due_of_list injections.now) height (length rows.now) bands.items
        ) }
{
    let count = (rows.len() + (height - 1)) / height;
    let mut shares = shares(alloc, injections, height, count)?;
    let mut bands = Vec::with_capacity(alloc, count)?;
    for b in 0..count {
        let y = b * height;
        let many = height.min(rows.len() - y);
        let own = mem::replace(&mut shares[b], List::of(Vec::new(alloc))).into_vec();
        bands.push(begin_band(alloc, rows, y, many, columns, own)?)?;
    }
    Ok(bands)
}
