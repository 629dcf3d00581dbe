// Heads and tails of a field.
ghost use Rattle.std.specs.Prelude.{◌≡◌, ◌≢◌, ◌+◌, ◌<◌, ◌≤◌, ◌^◌, true, None, IfSome};
ghost use Rattle.std.specs.Int.RustNames.{bit_or};
ghost use Rattle.lists.specs.Bits.{has_bit};
ghost use Rattle.lists.specs.Items.{number_at};

use crate::field::Field;
use crate::plane_row::PlaneRow;

// The place of a set bit of a word.
fn set_place(word: u64) -> usize
    requires { word ≢ 0 }
    ensures small { result < 64 }
    ensures set { has_bit word result ≡ true }
{
    word.trailing_zeros() as usize
}

impl Field {
    ghost use Rattle.band_rows.specs.Fields.{field_heads, field_tails, IsClosedField, IsDarkField, IsPlaneField, IsLitInField};
    ghost use Rattle.band_rows.specs.Facing.{words_in};

    /// Returns the heads of row k.
    pub fn heads_in_row(&self, k: usize) -> PlaneRow<'_>
        requires is { IsPlaneField self.now }
        requires row { k < self.now.rows }
        ensures columns { result.columns ≡ self.now.columns }
        ensures words { words_in result ≡ field_heads self.now (k + 1) }
    {
        PlaneRow {
            plane: &self.heads,
            columns: self.columns,
            stride: self.stride,
            r: k + 1,
        }
    }

    /// Returns the tails of row k. A cell that has a head's bit too is a head.
    pub fn tails_in_row(&self, k: usize) -> PlaneRow<'_>
        requires is { IsPlaneField self.now }
        requires row { k < self.now.rows }
        ensures columns { result.columns ≡ self.now.columns }
        ensures words { words_in result ≡ field_tails self.now (k + 1) }
    {
        PlaneRow {
            plane: &self.tails,
            columns: self.columns,
            stride: self.stride,
            r: k + 1,
        }
    }

    /// Returns true only if no cell is a head or a tail: if the list has room and no entry.
    pub fn is_dark(&self) -> bool
        requires closed { IsClosedField self.now }
        ensures { result ≡ true → IsDarkField self.now }
    {
        self.marks.many == 0 && self.marks.list.len() > 0
    }

    // A head or a tail in a word that has one.
    fn cell_in_word(&self, i: usize) -> (usize, usize)
        requires closed { IsClosedField self.now }
        requires few { self.now.columns ≤ 2 ^ 58 }
        requires lit { bit_or (number_at self.now.heads.items i) (number_at self.now.tails.items i)
            ≢ 0 }
        ensures { IsLitInField self.now result.0 result.1 }
    {
        let c = (i - 1) / self.stride - 1;
        let k = (i - 1) % self.stride - 1;
        let b = set_place(self.heads[i] | self.tails[i]);
        (64 * c + b, k)
    }

    /// Returns the column and row of a head or a tail, if there is one.
    pub fn lit_cell(&self) -> Option<(usize, usize)>
        requires closed { IsClosedField self.now }
        requires few { self.now.columns ≤ 2 ^ 58 }
        ensures some { IfSome result (λ cell. IsLitInField self.now cell.0 cell.1) }
        ensures none { result ≡ None → IsDarkField self.now }
    {
        match self.lit_word() {
            Some(i) => Some(self.cell_in_word(i)),
            None => None,
        }
    }
}
