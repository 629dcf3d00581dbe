// Fields of cells.
ghost use Rattle.std.specs.Prelude.{◌≡◌, ◌≢◌, ◌+◌, ◌*◌, ◌/◌, ◌^◌, ◌<◌, ◌≤◌, ℕ, [], length, get_or, drop, slice_set, All, IfOk, IfSome};
ghost use Rattle.ww_rule.specs.declared.pattern.State.TheVariants.{Empty};
ghost use Rattle.ww_rule.specs.Grid.{row_cell};
ghost use Rattle.lane_kernel.specs.Marked.{AreCleared};
ghost use Rattle.lane_kernel.specs.Spans.{AreZero};

use crate::cell_bits::{CellBits, any_filled, cells_of_word};
use crate::field::{Field, WAIT, WordMarks, mark_again};
use lane_kernel::Free;
use std::alloc::{AllocError, Global};
use ww_rule::{CellRows, State};

/// The list of marked words has an entry for so many words of a plane.
const WORDS_AN_ENTRY: usize = 8;

// How many words a plane has, if the number fits.
fn plane_size(columns: usize, stride: usize) -> Option<usize>
    ensures { IfSome result (λ size. size ≡ (columns + 2) * stride + 2) }
{
    let Some(across) = columns.checked_add(2) else {
        return None;
    };
    let Some(words) = across.checked_mul(stride) else {
        return None;
    };
    words.checked_add(2)
}

// Cleared marks of so many words, without a list.
fn no_marks(alloc: Global, words: usize) -> Result<WordMarks, AllocError>
    ensures long { IfOk result (λ marks. length marks.bytes.items ≡ words) }
    ensures cleared { IfOk result (λ marks. AreCleared marks.bytes.items) }
    ensures none { IfOk result (λ marks. marks.many ≡ 0) }
    ensures unlisted { IfOk result (λ marks. marks.list.items ≡ []) }
{
    Ok(WordMarks {
        bytes: vec![in alloc; 0; words]?,
        list: Vec::new(alloc),
        many: 0,
    })
}

// So many words without a bit.
fn no_words(alloc: Global, count: usize) -> Result<Vec<u64>, AllocError>
    ensures long { IfOk result (λ words. length words.items ≡ count) }
    ensures zero { IfOk result (λ words. AreZero words.items) }
{
    Ok(vec![in alloc; 0; count]?)
}

// Puts bits of cells into the words at a place of three planes.
fn put_bits(heads: &mut [u64], tails: &mut [u64], cells: &mut [u64], i: usize, bits: CellBits)
    requires heads { i < length heads.old }
    requires tails { i < length tails.old }
    requires cells { i < length cells.old }
    ensures heads { heads.new ≡ slice_set heads.old i bits.heads }
    ensures tails { tails.new ≡ slice_set tails.old i bits.tails }
    ensures cells { cells.new ≡ slice_set cells.old i bits.cells }
{
    heads[i] = bits.heads;
    tails[i] = bits.tails;
    cells[i] = bits.cells;
}

impl Field {
    ghost use Rattle.band_rows.specs.Fields.{field_state, AreOfOneSize, IsBlank, IsClosedField, IsUnlisted};
    ghost use Rattle.band_rows.specs.CellWords.{HasWordPut};

    // A field without cells, whose marks have no list.
    fn blank(alloc: Global, columns: usize, rows: usize) -> Result<Field, AllocError>
        ensures { IfOk result (λ field. IsBlank columns rows field) }
    {
        let Some(stride) = rows.checked_add(2) else {
            return Err(AllocError);
        };
        let Some(size) = plane_size(columns, stride) else {
            return Err(AllocError);
        };
        Ok(Field {
            columns,
            rows,
            stride,
            heads: no_words(alloc, size)?,
            tails: no_words(alloc, size)?,
            cells: no_words(alloc, size)?,
            marks: no_marks(alloc, size)?,
            spare: no_marks(alloc, size)?,
            wait: WAIT,
        })
    }

    // Gives the cells of row k in word column c, which are empty, their states.
    fn put_word(&mut self, k: usize, c: usize, cells: &[State])
        requires closed { IsClosedField self.old }
        requires unlisted { IsUnlisted self.old }
        requires column { c < self.old.columns }
        requires row { k < self.old.rows }
        requires few { length cells.now ≤ 64 }
        requires empty { (u : ℕ) → u / 64 ≡ c → field_state self.old u k ≡ Empty }
        ensures { HasWordPut cells.now c k self.old self.new }
    {
        if !any_filled(cells) {
            return;
        }
        let bits = CellBits::of_cells(cells);
        let i = (c + 1) * self.stride + 1 + (k + 1);
        put_bits(&mut self.heads, &mut self.tails, &mut self.cells, i, bits);
    }

    // Gives the cells of row k, which are empty, their states. A row of empty cells is passed over
    // at once, and so is a word of them.
    fn put_row(&mut self, k: usize, cells: &[State])
        requires closed { IsClosedField self.old }
        requires unlisted { IsUnlisted self.old }
        requires wide { length cells.now ≤ 64 * self.old.columns }
        requires row { k < self.old.rows }
        requires empty { (u : ℕ) → field_state self.old u k ≡ Empty }
        ensures closed { IsClosedField self.new }
        ensures unlisted { IsUnlisted self.new }
        ensures size { AreOfOneSize self.old self.new }
        ensures here { (u : ℕ) → field_state self.new u k ≡ row_cell cells.now u }
        ensures other { (u j : ℕ)
            → j < self.old.rows
            → j ≢ k
            → field_state self.new u j ≡ field_state self.old u j }
    {
        if !any_filled(cells) {
            return;
        }
        for c in 0..cells.len().div_ceil(64) {
            self.put_word(k, c, cells_of_word(cells, c));
        }
    }

    // Gives the cells of all rows, which are empty, their states: those of rows from row y on.
    fn put_rows(&mut self, cells: &CellRows, y: usize)
        requires closed { IsClosedField self.old }
        requires unlisted { IsUnlisted self.old }
        requires few { length cells.now < 2 ^ 63 }
        requires within { y + self.old.rows ≤ length cells.now }
        requires wide { All (λ row. length row ≤ 64 * self.old.columns) cells.now }
        requires empty { (u j : ℕ) → j < self.old.rows → field_state self.old u j ≡ Empty }
        ensures closed { IsClosedField self.new }
        ensures unlisted { IsUnlisted self.new }
        ensures size { AreOfOneSize self.old self.new }
        ensures shows { (u j : ℕ)
            → j < self.old.rows
            → field_state self.new u j ≡ get_or (get_or (drop y cells.now) j []) u Empty }
    {
        for k in 0..self.rows {
            self.put_row(k, cells.row(y + k));
        }
    }

    // Makes the marks, and their lists.
    fn mark_first(&mut self, list: Vec<usize>, spare: Vec<usize>)
        requires closed { IsClosedField self.old }
        ensures closed { IsClosedField self.new }
        ensures size { AreOfOneSize self.old self.new }
        ensures heads { self.new.heads ≡ self.old.heads }
        ensures tails { self.new.tails ≡ self.old.tails }
        ensures cells { self.new.cells ≡ self.old.cells }
    {
        self.marks.list = list;
        self.spare.list = spare;
        let free = Free {
            tails: &self.tails,
            cells: &self.cells,
            stride: self.stride,
        };
        mark_again(&self.heads, &free, &mut self.marks);
    }

    /// Makes a field of `rows` rows of cells from row y on, each in so many word columns.
    /// `AllocError` also comes if the number of words is over the greatest `usize`.
    pub fn of_cells(
        alloc: Global,
        cells: &CellRows,
        y: usize,
        rows: usize,
        columns: usize,
    ) -> Result<Field, AllocError>
        requires few { length cells.now < 2 ^ 63 }
        requires within { y + rows ≤ length cells.now }
        requires wide { All (λ row. length row ≤ 64 * columns) cells.now }
        ensures closed { IfOk result (λ field. IsClosedField field) }
        ensures columns { IfOk result (λ field. field.columns ≡ columns) }
        ensures rows { IfOk result (λ field. field.rows ≡ rows) }
        ensures shows { IfOk result (λ field.
            (k x : ℕ)
            → k < rows
            → field_state field x k ≡ get_or (get_or (drop y cells.now) k []) x Empty
            ) }
    {
        let mut field = Field::blank(alloc, columns, rows)?;
        let entries = field.heads.len() / WORDS_AN_ENTRY + 1;
        let list = vec![in alloc; 0; entries]?;
        let spare = vec![in alloc; 0; entries]?;
        field.put_rows(cells, y);
        field.mark_first(list, spare);
        Ok(field)
    }
}
