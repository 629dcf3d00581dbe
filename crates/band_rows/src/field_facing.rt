// Generations of a field between rows of heads.
ghost use Rattle.std.specs.Prelude.{◌≡◌, ◌<◌, ◌≤◌, ℕ, length, slice_set};
ghost use Rattle.lists.specs.Items.{number_at};
ghost use Rattle.lane_kernel.specs.Around.{IsInner};
ghost use Rattle.lane_kernel.specs.Marked.{AreListed, AreMore, AreTold};
ghost use Rattle.lane_kernel.specs.PlaneRows.{place};
ghost use Rattle.band_rows.specs.Facing.{words_in};
ghost use Rattle.band_rows.specs.Fields.{AreMarksOf};
ghost use Rattle.band_rows.specs.RowsPut.{HasRowPut};

use crate::field::{Field, WordMarks};
use crate::plane_row::{FacingRows, PlaneRow};
use lane_kernel::{Free, tell_around};

// Marks the words beside which these heads of word i stand.
fn tell_word(free: &Free<'_>, marks: &mut WordMarks, i: usize, heads: u64)
    requires marks { length marks.old.bytes.items ≡ length free.now.cells.now }
    requires inner { IsInner free.now.stride (length free.now.cells.now) i }
    requires listed { AreListed free.now.stride marks.old.bytes.items marks.old.list.items
        marks.old.many }
    ensures long { length marks.new.bytes.items ≡ length marks.old.bytes.items }
    ensures listed { AreListed free.now.stride marks.new.bytes.items marks.new.list.items
        marks.new.many }
    ensures more { AreMore marks.old.bytes.items marks.new.bytes.items }
    ensures told { AreTold free.now heads i marks.new.bytes.items }
{
    if heads == 0 {
        return;
    }
    marks.many = tell_around(
        &mut marks.bytes,
        &mut marks.list,
        marks.many,
        i,
        heads,
        free,
    );
}

// Puts heads into a word that has no cells.
fn take_word(heads: &mut [u64], free: &Free<'_>, marks: &mut WordMarks, i: usize, word: u64)
    requires heads { length heads.old ≡ length free.now.cells.now }
    requires marks { AreMarksOf free.now heads.old marks.old }
    requires inner { IsInner free.now.stride (length free.now.cells.now) i }
    requires empty { number_at free.now.cells.now i ≡ 0 }
    ensures heads { heads.new ≡ slice_set heads.old i word }
    ensures marks { AreMarksOf free.now heads.new marks.new }
{
    heads[i] = word;
    if marks.many == marks.list.len() {
        return;
    }
    tell_word(free, marks, i, word);
}

// Puts the words of a row into the r-th words of word columns, which have no cells.
fn take_row(heads: &mut [u64], free: &Free<'_>, marks: &mut WordMarks, row: &PlaneRow<'_>, r: usize)
    requires heads { length heads.old ≡ length free.now.cells.now }
    requires marks { AreMarksOf free.now heads.old marks.old }
    requires low { r < free.now.stride }
    requires inner { (c : ℕ)
        → c < row.now.columns
        → IsInner free.now.stride (length free.now.cells.now) (place free.now.stride c r) }
    requires empty { (c : ℕ)
        → c < row.now.columns
        → number_at free.now.cells.now (place free.now.stride c r) ≡ 0 }
    ensures long_heads { length heads.new ≡ length heads.old }
    ensures heads { HasRowPut free.now.stride r row.now.columns
        (λ c. number_at (words_in row.now) c) heads.old heads.new }
    ensures marks { AreMarksOf free.now heads.new marks.new }
{
    for c in 0..row.columns {
        let i = (c + 1) * free.stride + 1 + r;
        take_word(heads, free, marks, i, row.word(c));
    }
}

// Removes the r-th words of so many word columns.
fn clear_row(words: &mut [u64], columns: usize, stride: usize, r: usize)
    requires low { r < stride }
    requires within { (c : ℕ) → c < columns → place stride c r < length words.old }
    ensures long { length words.new ≡ length words.old }
    ensures words { HasRowPut stride r columns (λ c. 0) words.old words.new }
{
    for c in 0..columns {
        words[(c + 1) * stride + 1 + r] = 0;
    }
}

impl Field {
    ghost use Rattle.band_rows.specs.Fields.{HasForgotten, HasSteppedBetween, HasTaken, IsBesideRows, IsClosedField, IsPlaneField};

    // Takes over the heads of a row that faces the field into the r-th words of its word
    // columns.
    fn face(&mut self, row: &PlaneRow<'_>, r: usize)
        requires is { IsPlaneField self.old }
        requires narrow { row.now.columns ≤ self.old.columns }
        requires beside { IsBesideRows self.old.rows r }
        ensures { HasTaken (words_in row.now) r self.old self.new }
    {
        let free = Free {
            tails: &self.tails,
            cells: &self.cells,
            stride: self.stride,
        };
        take_row(&mut self.heads, &free, &mut self.marks, row, r);
    }

    // Removes the tails in the r-th words of so many word columns.
    fn forget(&mut self, columns: usize, r: usize)
        requires is { IsPlaneField self.old }
        requires narrow { columns ≤ self.old.columns }
        requires beside { IsBesideRows self.old.rows r }
        ensures { HasForgotten columns r self.old self.new }
    {
        clear_row(&mut self.tails, columns, self.stride, r);
    }

    // Goes on as `step_between` does, from marks that were looked at.
    fn step_faced(&mut self, facing: &FacingRows<'_>)
        requires closed { IsClosedField self.old }
        requires above { facing.now.above.columns ≤ self.old.columns }
        requires below { facing.now.below.columns ≤ self.old.columns }
        ensures { HasSteppedBetween
            (words_in facing.now.above) (words_in facing.now.below) self.old self.new }
    {
        let above = 0;
        let below = self.stride - 1;
        self.face(&facing.above, above);
        self.face(&facing.below, below);
        self.step();
        self.forget(facing.above.columns, above);
        self.forget(facing.below.columns, below);
    }

    /// Goes on by one generation between two rows of heads. The tails are then the heads that the
    /// field had.
    pub fn step_between(&mut self, facing: &FacingRows<'_>)
        requires closed { IsClosedField self.old }
        requires above { facing.now.above.columns ≤ self.old.columns }
        requires below { facing.now.below.columns ≤ self.old.columns }
        ensures { HasSteppedBetween
            (words_in facing.now.above) (words_in facing.now.below) self.old self.new }
    {
        self.settle();
        self.step_faced(facing);
    }
}
