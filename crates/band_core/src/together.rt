// Bands that all move on together.
ghost use Rattle.std.specs.Prelude.{◌≡◌, ◌+◌, ◌<◌, ◌≤◌, ◌^◌, ◌↔◌, ℕ, All, true, length, slice_set};
ghost use Rattle.ww_rule.specs.Wireworld.{Plane, Due};
ghost use Rattle.band_rows.specs.Fields.{IsClosedField};
ghost use Rattle.band_core.specs.Band.{AllShow, AreBands, CanMove, IsEvolution, generation_at, generations_of};
ghost use Rattle.band_core.specs.Together.{CanMoveOn, HasNoneDueFor, HasNoneLit, HaveMovedOn, HaveRested, IsNarrowBand};

use crate::band::Band;
use crate::moving::{awake_cell, move_band, rest_band};

// Moves band b on by one generation; its field stays if nothing can change in it.
fn move_one(bands: &mut [Band], b: usize, columns: usize, height: usize, rows: usize)
    requires can_move { CanMove columns height rows bands.old b }
    requires few { columns ≤ 2 ^ 58 }
    ensures bands { AreBands columns height rows bands.new }
    ensures generations { generations_of bands.new
        ≡ slice_set (generations_of bands.old) b (generation_at bands.old b + 1) }
    ensures shows { (e : ℕ → Plane) (due : Due) (width : ℕ)
        → IsEvolution e due width rows
        → AllShow e due height rows bands.old
        → AllShow e due height rows bands.new }
{
    if bands[b].field.is_dark() && awake_cell(bands, b, columns, height, rows).is_none() {
        rest_band(bands, b);
    } else {
        move_band(bands, b, columns, height, rows);
    }
}

// Moves all bands on by one generation.
fn step_all(bands: &mut [Band], columns: usize, height: usize, rows: usize)
    requires { CanMoveOn 1 columns height rows bands.old }
    ensures { HaveMovedOn 1 columns height rows bands.old bands.new }
{
    for b in 0..bands.len() {
        move_one(bands, b, columns, height, rows);
    }
}

// Moves all bands on by `n` generations, if nothing in them changes: their fields stay.
fn rest_all(bands: &mut [Band], n: u64)
    requires { All (λ band. band.generation + n < 2 ^ 64) bands.old }
    ensures { HaveRested n bands.old bands.new }
{
    for band in bands.iter_mut() {
        band.rest(n);
    }
}

// Returns true only if no cell of the bands is a head or a tail. It looks at the lists of marks.
fn are_dark(bands: &[Band]) -> bool
    requires { All (λ band. IsClosedField band.field) bands.now }
    ensures { result ≡ true → All HasNoneLit bands.now }
{
    for band in bands {
        if !band.field.is_dark() {
            return false;
        }
    }
    true
}

// Returns a number of generations, at most `most`; in none of the next so many an injection is due.
fn calm_generations(bands: &[Band], most: u64) -> u64
    ensures few { result ≤ most }
    ensures calm { All (HasNoneDueFor result) bands.now }
{
    let mut calm = most;
    for band in bands {
        calm = band.calm_generations(calm);
    }
    calm
}

// Moves a band that stands alone on, by at least one generation and at most `most`, and returns by
// how many.
fn run_alone(bands: &mut [Band], most: u64, columns: usize, height: usize, rows: usize) -> u64
    requires some { 0 < most }
    requires one { length bands.old ≡ 1 }
    requires can_move { CanMoveOn most columns height rows bands.old }
    ensures some { 0 < result }
    ensures few { result ≤ most }
    ensures moved { HaveMovedOn result columns height rows bands.old bands.new }
{
    let calm = calm_generations(bands, most);
    if calm == 0 {
        step_all(bands, columns, height, rows);
        return 1;
    }
    bands[0].run(calm)
}

// Moves all bands on, by at least one generation and at most `most`, and returns by how many. Where
// no list has an entry, the bands come to the generation before the next injection at once.
fn move_further(bands: &mut [Band], most: u64, columns: usize, height: usize, rows: usize) -> u64
    requires some { 0 < most }
    requires can_move { CanMoveOn most columns height rows bands.old }
    ensures some { 0 < result }
    ensures few { result ≤ most }
    ensures moved { HaveMovedOn result columns height rows bands.old bands.new }
{
    if are_dark(bands) {
        let calm = calm_generations(bands, most);
        if calm > 0 {
            rest_all(bands, calm);
            return calm;
        }
    }
    if bands.len() == 1 {
        return run_alone(bands, most, columns, height, rows);
    }
    step_all(bands, columns, height, rows);
    1
}

/// Moves all bands on by `n` generations. It takes no memory.
pub fn move_all(bands: &mut [Band], n: u64, columns: usize, height: usize, rows: usize)
    requires { CanMoveOn n columns height rows bands.old }
    ensures { HaveMovedOn n columns height rows bands.old bands.new }
{
    let mut left = n;
    while left > 0 {
        left -= move_further(bands, left, columns, height, rows);
    }
}

/// Returns whether no cell of the bands is a head or a tail.
pub fn are_unlit(bands: &[Band]) -> bool
    requires { All IsNarrowBand bands.now }
    ensures { (result ≡ true) ↔ All HasNoneLit bands.now }
{
    for band in bands {
        if band.field.lit_cell().is_some() {
            return false;
        }
    }
    true
}
