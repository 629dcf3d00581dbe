// Bands that move on beside others.
ghost use Rattle.std.specs.Prelude.{◌≡◌, ◌+◌, ◌-◌, ◌*◌, ◌<◌, ◌≤◌, ◌^◌, ℕ, pos, length, get_or, slice_set, None, IfSome};
ghost use Rattle.ww_rule.specs.Wireworld.{Plane, Due};
ghost use Rattle.band_rows.specs.Facing.{words_in};
ghost use Rattle.band_core.specs.declared.band.Band.{Band};
ghost use Rattle.band_core.specs.Bands.{not_ready, unready_neighbour};
ghost use Rattle.band_core.specs.Band.{AreBands, AllShow, CanMove, HasNoneDue, IsEvolution, IsBand, IsQuiet, IsWaking, ShowsBand, generation_at, generations_of, rows_in_band};
ghost use Rattle.band_core.specs.Beside.{HasRows, HaveRows, IsRowAbove, IsRowBelow, ShowRowsOf};

use crate::awake::due_cell;
use crate::band::Band;
use crate::error::NotReady;
use band_rows::{FacingRows, PlaneRow};
use facing_rows::faced_cell;

// A neighbour of band b, if its generation is neither the band's nor one more.
fn not_ready(bands: &[Band], b: usize, neighbour: usize) -> Option<NotReady>
    requires band { b < length bands.now }
    requires neighbour { neighbour < length bands.now }
    requires room { generation_at bands.now b + 1 < 2 ^ 64 }
    ensures { result ≡ not_ready (generations_of bands.now) b neighbour }
{
    let own = bands[b].generation;
    let generation = bands[neighbour].generation;
    if generation == own || generation == own + 1 {
        return None;
    }
    Some(NotReady {
        neighbour,
        generation,
    })
}

/// Returns the neighbour that keeps band b from moving on, if there is one; the upper one is looked
/// at first.
pub fn unready_neighbour(bands: &[Band], b: usize) -> Option<NotReady>
    requires band { b < length bands.now }
    requires room { generation_at bands.now b + 1 < 2 ^ 64 }
    ensures { result ≡ unready_neighbour (generations_of bands.now) b }
{
    if b > 0 {
        if let Some(refusal) = not_ready(bands, b, b - 1) {
            return Some(refusal);
        }
    }
    if b + 1 < bands.len() {
        return not_ready(bands, b, b + 1);
    }
    None
}

// The heads of the last row of the bands before, at a generation, or none if there is no band.
fn row_above(before: &[Band], generation: u64) -> PlaneRow<'_>
    requires some { (d : Band)
        → 0 < length before.now
        → HasRows (get_or before.now (length before.now - 1) d) }
    ensures { IsRowAbove before.now generation (words_in result) }
{
    if before.is_empty() {
        return PlaneRow::none();
    }
    before[before.len() - 1].bottom_heads(generation)
}

// The heads of the first row of the bands after, at a generation, or none if there is no band.
fn row_below(after: &[Band], generation: u64) -> PlaneRow<'_>
    requires some { (d : Band) → 0 < length after.now → HasRows (get_or after.now 0 d) }
    ensures { IsRowBelow after.now generation (words_in result) }
{
    if after.is_empty() {
        return PlaneRow::none();
    }
    after[0].top_heads(generation)
}

// Moves a band on by one generation, between the bands before and after it. It stands apart, since
// the proof knows nothing of split bands once a struct has borrowed from them.
fn step_beside(band: &mut Band, y: usize, before: &[Band], after: &[Band])
    requires is { IsBand band.old.field.columns y band.old.field.rows band.old }
    requires room { band.old.generation + 1 < 2 ^ 64 }
    requires rows { HaveRows before.now after.now band.old.generation band.old.field.columns }
    ensures generation { band.new.generation ≡ band.old.generation + 1 }
    ensures is { IsBand band.old.field.columns y band.old.field.rows band.new }
    ensures shows { (e : ℕ → Plane) (due : Due) (width height : ℕ)
        → IsEvolution e due width height
        → ShowsBand e due y band.old.field.rows band.old
        → ShowRowsOf
        before.now after.now band.old.generation
        (e band.old.generation) (pos y) band.old.field.rows
        → ShowsBand e due y band.old.field.rows band.new }
{
    let above = row_above(before, band.generation);
    let below = row_below(after, band.generation);
    band.step(y, &FacingRows { above, below });
}

/// Moves band b on by one generation. It takes no memory.
// It stands apart, so that a loop over sleeping bands stays small.
#[inline(never)]
pub fn move_band(bands: &mut [Band], b: usize, columns: usize, height: usize, rows: usize)
    requires { CanMove columns height rows bands.old b }
    ensures bands { AreBands columns height rows bands.new }
    ensures generations { generations_of bands.new
        ≡ slice_set (generations_of bands.old) b (generation_at bands.old b + 1) }
    ensures shows { (e : ℕ → Plane) (due : Due) (width : ℕ)
        → IsEvolution e due width rows
        → AllShow e due height rows bands.old
        → AllShow e due height rows bands.new }
{
    let (before, rest) = bands.split_at_mut(b);
    let (own, after) = rest.split_at_mut(1);
    step_beside(&mut own[0], b * height, before, after);
}

/// Moves band b on by one generation, if nothing in it can change: its field stays.
pub fn rest_band(bands: &mut [Band], b: usize)
    requires band { b < length bands.old }
    requires room { generation_at bands.old b + 1 < 2 ^ 64 }
    requires none_due { (d : Band) → HasNoneDue (get_or bands.old b d) }
    ensures bands { (columns height rows : ℕ)
        → AreBands columns height rows bands.old
        → AreBands columns height rows bands.new }
    ensures generations { generations_of bands.new
        ≡ slice_set (generations_of bands.old) b (generation_at bands.old b + 1) }
    ensures shows { (e : ℕ → Plane) (due : Due) (width columns height rows : ℕ)
        → IsEvolution e due width rows
        → AreBands columns height rows bands.old
        → AllShow e due height rows bands.old
        → IsQuiet e due (generation_at bands.old b) (b * height) (rows_in_band height rows b)
        → AllShow e due height rows bands.new }
{
    bands[b].rest(1);
}

/// Returns a cell that keeps band b awake, if there is one.
pub fn awake_cell(
    bands: &[Band],
    b: usize,
    columns: usize,
    height: usize,
    rows: usize,
) -> Option<(u64, u64)>
    requires can_move { CanMove columns height rows bands.now b }
    requires few { columns ≤ 2 ^ 58 }
    ensures some { IfSome result (λ cell.
        (e : ℕ → Plane) (due : Due) (width : ℕ)
        → IsEvolution e due width rows
        → AllShow e due height rows bands.now
        → IsWaking e due (generation_at bands.now b)
        (b * height) (rows_in_band height rows b) cell.0 cell.1
        ) }
    ensures none_due { result ≡ None → (d : Band) → HasNoneDue (get_or bands.now b d) }
    ensures quiet { result ≡ None
        → (e : ℕ → Plane) (due : Due) (width : ℕ)
        → IsEvolution e due width rows
        → AllShow e due height rows bands.now
        → IsQuiet e due (generation_at bands.now b) (b * height) (rows_in_band height rows b) }
{
    let band = &bands[b];
    let y = b * height;
    if let Some((x, k)) = band.field.lit_cell() {
        return Some((x as u64, (y + k) as u64));
    }
    let (before, rest) = bands.split_at(b);
    let (_, after) = rest.split_at(1);
    let above = row_above(before, band.generation);
    let below = row_below(after, band.generation);
    if let Some((x, z)) = faced_cell(y, band.field.rows, &FacingRows { above, below }) {
        return Some((x as u64, z as u64));
    }
    due_cell(band)
}
