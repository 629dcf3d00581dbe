//! The rows of heads that face each other across the border of two bands: those that a band shows, and a head in those
//! that it faces.
//!
//! Theorem: `bottom_heads`, `top_heads`, `faced_cell`.
#![tactic(auto)]

ghost use Rattle.std.specs.Prelude.{◌≡◌, ◌+◌, ◌<◌, ◌≤◌, ◌^◌, ◌⊎◌, ℕ, true, false, None, IfSome};
ghost use Rattle.lane_kernel.specs.Rows.{is_set};
ghost use Rattle.band_rows.specs.Facing.{words_in};
ghost use Rattle.band_rows.specs.Fields.{IsPlaneField};
ghost use Rattle.facing_rows.specs.Facing.{shown_heads};

use band_rows::{FacingRows, Field, PlaneRow};

/// Returns the heads of the bottom row of a field at a generation, which is `now`, the field's, or
/// the one before.
pub fn bottom_heads(field: &Field, now: u64, generation: u64) -> PlaneRow<'_>
    requires is { IsPlaneField field.now }
    requires some { 0 < field.now.rows }
    ensures heads { words_in result ≡ shown_heads generation now field.now field.now.rows }
{
    let last = field.rows - 1;
    if now == generation {
        return field.heads_in_row(last);
    }
    field.tails_in_row(last)
}

/// Returns the heads of the top row of a field at a generation, which is `now`, the field's, or the
/// one before.
pub fn top_heads(field: &Field, now: u64, generation: u64) -> PlaneRow<'_>
    requires is { IsPlaneField field.now }
    requires some { 0 < field.now.rows }
    ensures heads { words_in result ≡ shown_heads generation now field.now 1 }
{
    if now == generation {
        return field.heads_in_row(0);
    }
    field.tails_in_row(0)
}

/// Returns the column and row of a head, if there is one, in the two rows beside a band. The band
/// has `many` rows, from row y on.
pub fn faced_cell(y: usize, many: usize, facing: &FacingRows<'_>) -> Option<(usize, usize)>
    requires few_above { facing.now.above.columns ≤ 2 ^ 58 }
    requires few_below { facing.now.below.columns ≤ 2 ^ 58 }
    requires room { y + many < 2 ^ 64 }
    ensures some { IfSome result (λ cell.
        ((cell.1 + 1 ≡ y) × (is_set (words_in facing.now.above) cell.0 ≡ true))
        ⊎ ((cell.1 ≡ y + many) × (is_set (words_in facing.now.below) cell.0 ≡ true))
        ) }
    ensures none_above { result ≡ None → 0 < y → (x : ℕ)
        → is_set (words_in facing.now.above) x ≡ false }
    ensures none_below { result ≡ None → (x : ℕ)
        → is_set (words_in facing.now.below) x ≡ false }
{
    if y > 0 {
        if let Some(x) = facing.above.set_cell() {
            return Some((x, y - 1));
        }
    }
    match facing.below.set_cell() {
        Some(x) => Some((x, y + many)),
        None => None,
    }
}
