// Rows of cells in three planes of words, with marks of the words that may change.
ghost use Rattle.std.specs.Prelude.{◌≡◌, ◌≢◌, ◌+◌, ◌-◌, ◌*◌, ◌/◌, ◌<◌, ◌≤◌, ◌%◌, ◌^◌, slice_set, ◌+ℤ◌, ◌-ℤ◌, ◌==◌, ◌&&◌, if◌then◌else◌, ℤ, ℕ, pos, length, None, IfSome};
ghost use Rattle.lists.specs.Items.{number_at};
ghost use Rattle.ww_rule.specs.Wireworld.{Plane, next_plane};
ghost use Rattle.std.specs.Int.RustNames.{bit_or};
ghost use Rattle.ww_rule.specs.declared.pattern.State.TheVariants.{Head};
ghost use Rattle.lane_kernel.specs.Around.{next_word, IsFramed, IsInner};
ghost use Rattle.lane_kernel.specs.Marked.{AreAsLong, AreCleared, AreListed, AreMore, AreOn, AreTold, IsMarked, beside_mark};
ghost use Rattle.lists.specs.Bits.{has_bit};
ghost use Rattle.lane_kernel.specs.Rows.{state_of};
ghost use Rattle.lane_kernel.specs.PlaneRows.{HasDarkSides, IsEmptyWest, ShowsHeads};

use lane_kernel::{BESIDE, Free, mark, mark_words, step_all, step_listed, tell_around};
use std::mem;
use ww_rule::State;

/// After so many calls with a full list the marks are made again, if few words are lit.
pub const WAIT: u32 = 64;

/// Marks of the words of a plane: a byte for each word, and places of words, of which the first
/// `many` of `list` count. Unless the list is full, each word with a mark is among them. If it is
/// full, some words that may change may have no mark.
#[derive(Drop)]
pub struct WordMarks {
    pub bytes: Vec<u8>,
    pub list: Vec<usize>,
    pub many: usize,
}

/// Rows of cells in word columns, 64 cells to a word: planes of heads, of tails, and of all cells
/// that are not empty. Each word column has a word above its rows and one below them, which makes
/// `stride` words. The planes have a word column more on each side, and a word before and one after
/// all of them. A cell with the bits of a head and of a tail is a head. `marks` are those of the
/// words that may change. The bytes of the spare marks are cleared, and their list does not count.
/// While the list of `marks` is full, `wait` counts the calls of `settle` until these are made
/// again, if few words are lit then.
#[derive(Drop)]
pub struct Field {
    pub columns: usize,
    pub rows: usize,
    pub stride: usize,
    pub heads: Vec<u64>,
    pub tails: Vec<u64>,
    pub cells: Vec<u64>,
    pub marks: WordMarks,
    pub spare: WordMarks,
    pub wait: u32,
}

/// Words of a slice are below 2 ^ 64.
pub fn all_fit(words: &[u64])
    ensures { (j : ℕ) → number_at words.now j < 2 ^ 64 }
{
    let _long = words.len();
}

/// Steps the marked words of a plane by one generation; the new heads take the tails' place.
/// `coming` has the heads as tails, which they are then.
pub fn step_marked(coming: &Free<'_>, tails: &mut [u64], now: &mut WordMarks, soon: &mut WordMarks)
    requires long { AreAsLong coming.now.cells.now
        tails.old now.old.bytes.items soon.old.bytes.items }
    requires on_cells { AreOn coming.now.cells.now tails.old }
    requires room { now.old.many < length now.old.list.items }
    requires listed { AreListed coming.now.stride now.old.bytes.items now.old.list.items
        now.old.many }
    requires marked { IsMarked coming.now.stride
        coming.now.tails.now tails.old coming.now.cells.now now.old.bytes.items }
    requires cleared { AreCleared soon.old.bytes.items }
    ensures long_tails { length tails.new ≡ length tails.old }
    ensures long_now { length now.new.bytes.items ≡ length now.old.bytes.items }
    ensures long_soon { length soon.new.bytes.items ≡ length soon.old.bytes.items }
    ensures next { (i : ℕ)
        → number_at tails.new i
        ≡ next_word coming.now.stride coming.now.tails.now tails.old coming.now.cells.now i }
    ensures cleared { AreCleared now.new.bytes.items }
    ensures listed { AreListed coming.now.stride soon.new.bytes.items soon.new.list.items
        soon.new.many }
    ensures marked { IsMarked coming.now.stride
        tails.new coming.now.tails.now coming.now.cells.now soon.new.bytes.items }
{
    let entries = &now.list[..now.many];
    soon.many = step_listed(
        coming,
        tails,
        &mut now.bytes,
        entries,
        &mut soon.bytes,
        &mut soon.list,
    );
}

// Steps all words of a plane by one generation; the new heads take the tails' place.
fn step_plane(heads: &[u64], tails: &mut [u64], cells: &[u64], stride: usize)
    requires heads { length heads.now ≡ length cells.now }
    requires tails { length tails.old ≡ length cells.now }
    requires framed { IsFramed stride cells.now }
    requires size { stride + stride + 2 ≤ length cells.now }
    requires on_cells { AreOn cells.now tails.old }
    ensures long { length tails.new ≡ length tails.old }
    ensures next { (i : ℕ)
        → number_at tails.new i ≡ next_word stride heads.now tails.old cells.now i }
{
    let coming = Free {
        tails: heads,
        cells,
        stride,
    };
    step_all(&coming, tails);
}

/// Sets a bit of a word in two planes.
pub fn set_bits(heads: &mut [u64], cells: &mut [u64], i: usize, b: usize)
    requires heads { i < length heads.old }
    requires cells { i < length cells.old }
    requires bit { b < 64 }
    ensures heads { heads.new
        ≡ slice_set heads.old i (bit_or (number_at heads.old i) (1 * 2 ^ b % 2 ^ 64)) }
    ensures cells { cells.new
        ≡ slice_set cells.old i (bit_or (number_at cells.old i) (1 * 2 ^ b % 2 ^ 64)) }
{
    heads[i] |= 1 << b;
    cells[i] |= 1 << b;
}

// Marks a word that got a head, and those beside which its heads stand.
fn mark_head(heads: &[u64], free: &Free<'_>, now: &mut WordMarks, i: usize)
    requires heads { length heads.now ≡ length free.now.cells.now }
    requires now { length now.old.bytes.items ≡ length free.now.cells.now }
    requires inner { IsInner free.now.stride (length free.now.cells.now) i }
    requires listed { AreListed free.now.stride now.old.bytes.items now.old.list.items
        now.old.many }
    ensures long { length now.new.bytes.items ≡ length now.old.bytes.items }
    ensures long_list { length now.new.list.items ≡ length now.old.list.items }
    ensures listed { AreListed free.now.stride now.new.bytes.items now.new.list.items
        now.new.many }
    ensures more { AreMore now.old.bytes.items now.new.bytes.items }
    ensures here { beside_mark ≤ number_at now.new.bytes.items i }
    ensures told { AreTold free.now (number_at heads.now i) i now.new.bytes.items }
{
    let many = mark(
        &mut now.bytes,
        &mut now.list,
        now.many,
        i,
        BESIDE,
        free.stride,
    );
    now.many = tell_around(&mut now.bytes, &mut now.list, many, i, heads[i], free);
}

// How many words are lit.
fn lit_words(heads: &[u64], tails: &[u64]) -> usize
    requires { length tails.now ≡ length heads.now }
    ensures { result ≤ length heads.now }
{
    let mut many = 0;
    for i in 0..heads.len() {
        if heads[i] | tails[i] != 0 {
            many += 1;
        }
    }
    many
}

// A lit word at one of these places, if there is one.
fn lit_listed(heads: &[u64], tails: &[u64], places: &[usize]) -> Option<usize>
    requires tails { length tails.now ≡ length heads.now }
    requires inside { (k : ℕ)
        → k < length places.now
        → number_at places.now k < length heads.now }
    ensures some { IfSome result (λ i.
        bit_or (number_at heads.now i) (number_at tails.now i) ≢ 0
        ) }
    ensures none { result ≡ None
        → (k : ℕ)
        → k < length places.now
        → bit_or
        (number_at heads.now (number_at places.now k))
        (number_at tails.now (number_at places.now k))
        ≡ 0 }
{
    for k in 0..places.len() {
        let i = places[k];
        if heads[i] | tails[i] != 0 {
            return Some(i);
        }
    }
    None
}

// A lit word, if there is one.
fn lit_anywhere(heads: &[u64], tails: &[u64]) -> Option<usize>
    requires tails { length tails.now ≡ length heads.now }
    ensures some { IfSome result (λ i.
        bit_or (number_at heads.now i) (number_at tails.now i) ≢ 0
        ) }
    ensures none { result ≡ None
        → (i : ℕ)
        → i < length heads.now
        → bit_or (number_at heads.now i) (number_at tails.now i) ≡ 0 }
{
    for i in 0..heads.len() {
        if heads[i] | tails[i] != 0 {
            return Some(i);
        }
    }
    None
}

/// Makes the marks of a plane from nothing.
pub fn mark_again(heads: &[u64], free: &Free<'_>, marks: &mut WordMarks)
    requires heads { length heads.now ≡ length free.now.cells.now }
    requires marks { length marks.old.bytes.items ≡ length free.now.cells.now }
    requires size { free.now.stride + free.now.stride + 2 ≤ length free.now.cells.now }
    requires heads_on_cells { AreOn free.now.cells.now heads.now }
    requires tails_on_cells { AreOn free.now.cells.now free.now.tails.now }
    ensures long { length marks.new.bytes.items ≡ length marks.old.bytes.items }
    ensures listed { AreListed free.now.stride marks.new.bytes.items marks.new.list.items
        marks.new.many }
    ensures marked { IsMarked free.now.stride
        heads.now free.now.tails.now free.now.cells.now marks.new.bytes.items }
{
    marks.many = mark_words(free, heads, &mut marks.bytes, &mut marks.list);
}

// Whether a bit of a word is set.
fn has_bit(words: &[u64], i: usize, b: usize) -> bool
    requires within { i < length words.now }
    requires bit { b < 64 }
    ensures { result ≡ has_bit (number_at words.now i) b }
{
    (words[i] >> b) & 1 == 1
}

// The state of a cell with these three bits.
fn state_of(head: bool, tail: bool, cell: bool) -> State
    ensures { result ≡ state_of head tail cell }
{
    if head {
        return State::Head;
    }
    if tail {
        return State::Tail;
    }
    if cell {
        return State::Conductor;
    }
    State::Empty
}

impl Field {
    ghost use Rattle.band_rows.specs.Fields.{field_heads, field_state, AreOfOneSize, IsClosedField, IsPlaneField, IsFieldStepped, ShowsField};

    // Steps the marked words.
    fn step_by_list(&mut self)
        requires is { IsPlaneField self.old }
        requires on_cells { AreOn self.old.cells.items self.old.tails.items }
        requires room { self.old.marks.many < length self.old.marks.list.items }
        ensures { IsFieldStepped self.old self.new }
    {
        let coming = Free {
            tails: &self.heads,
            cells: &self.cells,
            stride: self.stride,
        };
        step_marked(&coming, &mut self.tails, &mut self.marks, &mut self.spare);
        mem::swap(&mut self.marks, &mut self.spare);
        mem::swap(&mut self.heads, &mut self.tails);
    }

    // Steps all words, if the list is full.
    fn step_by_plane(&mut self)
        requires is { IsPlaneField self.old }
        requires on_cells { AreOn self.old.cells.items self.old.tails.items }
        requires full { length self.old.marks.list.items ≤ self.old.marks.many }
        ensures { IsFieldStepped self.old self.new }
    {
        step_plane(&self.heads, &mut self.tails, &self.cells, self.stride);
        mem::swap(&mut self.heads, &mut self.tails);
    }

    /// Goes on by one generation. The words above the first row and below the last may hold the
    /// heads of rows that face the field; afterwards they stand in the tails' plane.
    pub fn step(&mut self)
        requires is { IsPlaneField self.old }
        requires on_cells { AreOn self.old.cells.items self.old.tails.items }
        ensures stepped { IsFieldStepped self.old self.new }
        ensures shows { (p : Plane) (y : ℤ)
            → IsEmptyWest p
            → HasDarkSides self.old.columns self.old.stride self.old.heads.items
            → ShowsHeads (field_heads self.old 0) p (y -ℤ pos 1)
            → ShowsField self.old p y
            → ShowsHeads (field_heads self.old (self.old.rows + 1)) p (y +ℤ pos self.old.rows)
            → ShowsField self.new (next_plane p) y }
    {
        all_fit(&self.heads);
        if self.marks.many < self.marks.list.len() {
            self.step_by_list();
            return;
        }
        self.step_by_plane();
    }

    /// Makes the cell of column x in row k a head, whatever it was. All tails stay.
    pub fn make_head(&mut self, x: usize, k: usize)
        requires closed { IsClosedField self.old }
        requires column { x / 64 < self.old.columns }
        requires row { k < self.old.rows }
        ensures closed { IsClosedField self.new }
        ensures size { AreOfOneSize self.old self.new }
        ensures tails { self.new.tails.items ≡ self.old.tails.items }
        ensures full { length self.old.marks.list.items ≤ self.old.marks.many
            → self.new.marks ≡ self.old.marks }
        ensures cells { (u j : ℕ)
            → j < self.old.rows
            → field_state self.new u j
            ≡ (if u == x && j == k then Head else field_state self.old u j) }
    {
        let i = (x / 64 + 1) * self.stride + 1 + (k + 1);
        set_bits(&mut self.heads, &mut self.cells, i, x % 64);
        if self.marks.many == self.marks.list.len() {
            return;
        }
        let free = Free {
            tails: &self.tails,
            cells: &self.cells,
            stride: self.stride,
        };
        mark_head(&self.heads, &free, &mut self.marks, i);
    }

    /// Returns the state of the cell of column x in row k.
    pub fn state(&self, x: usize, k: usize) -> State
        requires is { IsPlaneField self.now }
        requires column { x / 64 < self.now.columns }
        requires row { k < self.now.rows }
        ensures { result ≡ field_state self.now x k }
    {
        let i = (x / 64 + 1) * self.stride + 1 + (k + 1);
        let b = x % 64;
        let head = has_bit(&self.heads, i, b);
        let tail = has_bit(&self.tails, i, b);
        let cell = has_bit(&self.cells, i, b);
        state_of(head, tail, cell)
    }

    /// Makes the marks again, if the list has been full in some calls and few words are lit. No cell
    /// changes.
    pub fn settle(&mut self)
        requires closed { IsClosedField self.old }
        ensures closed { IsClosedField self.new }
        ensures size { AreOfOneSize self.old self.new }
        ensures heads { self.new.heads ≡ self.old.heads }
        ensures tails { self.new.tails ≡ self.old.tails }
        ensures cells { self.new.cells ≡ self.old.cells }
    {
        if self.marks.many < self.marks.list.len() {
            return;
        }
        if self.wait > 0 {
            self.wait -= 1;
            return;
        }
        self.wait = WAIT;
        if lit_words(&self.heads, &self.tails) > self.marks.list.len() / 2 {
            return;
        }
        let free = Free {
            tails: &self.tails,
            cells: &self.cells,
            stride: self.stride,
        };
        mark_again(&self.heads, &free, &mut self.marks);
    }

    /// Returns the place of a word that has a head or a tail, if there is one.
    pub fn lit_word(&self) -> Option<usize>
        requires closed { IsClosedField self.now }
        ensures some { IfSome result (λ i.
            bit_or (number_at self.now.heads.items i) (number_at self.now.tails.items i) ≢ 0
            ) }
        ensures none { result ≡ None
            → (i : ℕ)
            → bit_or (number_at self.now.heads.items i) (number_at self.now.tails.items i) ≡ 0 }
    {
        if self.marks.many < self.marks.list.len() {
            return lit_listed(
                &self.heads,
                &self.tails,
                &self.marks.list[..self.marks.many],
            );
        }
        lit_anywhere(&self.heads, &self.tails)
    }
}
