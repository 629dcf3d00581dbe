// One generation of the marked words of a plane.
ghost use Rattle.std.specs.Prelude.{◌≡◌, ◌≢◌, ◌+◌, ◌<◌, ◌≤◌, ◌^◌, ℕ, List, length};
ghost use Rattle.lists.specs.Items.{number_at};
ghost use Rattle.lane_kernel.specs.Around.{next_word, StepsAlone, IsInner};
ghost use Rattle.lane_kernel.specs.Marked.{AreAsLong, AreCleared, AreListed, AreMore, AreOn, AreTold, IsAmong, IsMarked, IsUnderWay, lit_mark};
ghost use Rattle.lane_kernel.specs.PlaneRows.{IsNextPlane};

use crate::free_cells::Free;
use crate::planes::{heads_alone, next_word, next_words, wires_of};
use crate::word_marks::{LIT, mark, tell_around};

// Words of a slice are below 2 ^ 64.
fn all_fit(words: &[u64])
    ensures { (j : ℕ) → number_at words.now j < 2 ^ 64 }
{
    let _long = words.len();
}

// The heads of a word one generation later, by its mark.
fn stepped_word(
    heads: &[u64],
    tails: &[u64],
    cells: &[u64],
    i: usize,
    byte: u8,
    stride: usize,
) -> u64
    requires inner { IsInner stride (length heads.now) i }
    requires tails { length tails.now ≡ length heads.now }
    requires cells { length cells.now ≡ length heads.now }
    requires calm { byte ≡ lit_mark → StepsAlone stride heads.now tails.now cells.now i }
    ensures { result ≡ next_word stride heads.now tails.now cells.now i }
{
    if byte == LIT {
        return heads_alone(heads[i], wires_of(cells[i], heads[i], tails[i]));
    }
    next_word(heads, tails, cells, i, stride)
}

// Marks a word, if it has a head or a tail, and the words beside which its heads stand. Returns how
// many words are listed.
#[inline(always)]
fn mark_lit(
    bytes: &mut [u8],
    list: &mut [usize],
    many: usize,
    i: usize,
    heads: u64,
    free: &Free<'_>,
) -> usize
    requires inner { IsInner free.now.stride (length bytes.old) i }
    requires long { length free.now.cells.now ≡ length bytes.old }
    requires listed { AreListed free.now.stride bytes.old list.old many }
    ensures long { length bytes.new ≡ length bytes.old }
    ensures long_list { length list.new ≡ length list.old }
    ensures listed { AreListed free.now.stride bytes.new list.new result }
    ensures more { AreMore bytes.old bytes.new }
    ensures dark { number_at bytes.new i ≡ 0
        → (heads ≡ 0) × (number_at free.now.tails.now i ≡ 0) }
    ensures told { AreTold free.now heads i bytes.new }
{
    let lit = heads | free.tails[i];
    if lit == 0 {
        return many;
    }
    let many = mark(bytes, list, many, i, LIT, free.stride);
    if heads == 0 {
        return many;
    }
    tell_around(bytes, list, many, i, heads, free)
}

// Steps the word of entry k, if it has a mark, and clears the mark. `coming` has the heads as
// tails.
fn step_entry(
    coming: &Free<'_>,
    tails: &mut [u64],
    bytes: &mut [u8],
    entries: &[usize],
    k: usize,
    soon: &mut [u8],
    list: &mut [usize],
    many: usize,
) -> usize
    requires within { k < length entries.now }
    requires inner { IsInner coming.now.stride (length coming.now.cells.now)
        (number_at entries.now k) }
    requires long { AreAsLong coming.now.cells.now tails.old bytes.old soon.old }
    requires calm { number_at bytes.old (number_at entries.now k) ≡ lit_mark
        → StepsAlone coming.now.stride
        coming.now.tails.now tails.old coming.now.cells.now (number_at entries.now k) }
    requires listed { AreListed coming.now.stride soon.old list.old many }
    ensures tails { length tails.new ≡ length tails.old }
    ensures bytes { length bytes.new ≡ length bytes.old }
    ensures soon { length soon.new ≡ length soon.old }
    ensures listed { AreListed coming.now.stride soon.new list.new result }
    ensures goes_on { (old : List ℕ)
        → IsUnderWay coming.now old entries.now k tails.old bytes.old soon.old
        → IsUnderWay coming.now old entries.now (k + 1) tails.new bytes.new soon.new }
{
    let i = entries[k];
    let byte = bytes[i];
    if byte == 0 {
        return many;
    }
    let fired = stepped_word(coming.tails, tails, coming.cells, i, byte, coming.stride);
    bytes[i] = 0;
    tails[i] = fired;
    mark_lit(soon, list, many, i, fired, coming)
}

/// Steps the listed words of a plane by one generation; the new heads take the tails' place, all
/// marks are cleared, and the words that may change next are marked in `soon`. `coming` has the
/// heads as tails, which they are then. Returns how many of the words marked in `soon` are listed.
pub fn step_listed(
    coming: &Free<'_>,
    tails: &mut [u64],
    bytes: &mut [u8],
    entries: &[usize],
    soon: &mut [u8],
    list: &mut [usize],
) -> usize
    requires long { AreAsLong coming.now.cells.now tails.old bytes.old soon.old }
    requires on_cells { AreOn coming.now.cells.now tails.old }
    requires inner { (k : ℕ)
        → k < length entries.now
        → IsInner coming.now.stride (length coming.now.cells.now) (number_at entries.now k) }
    requires each { (i : ℕ)
        → number_at bytes.old i ≢ 0
        → IsAmong entries.now 0 (length entries.now) i }
    requires marked { IsMarked coming.now.stride
        coming.now.tails.now tails.old coming.now.cells.now bytes.old }
    requires cleared { AreCleared soon.old }
    ensures long_tails { length tails.new ≡ length tails.old }
    ensures long_bytes { length bytes.new ≡ length bytes.old }
    ensures long_soon { length soon.new ≡ length soon.old }
    ensures next { (i : ℕ)
        → number_at tails.new i
        ≡ next_word coming.now.stride coming.now.tails.now tails.old coming.now.cells.now i }
    ensures shows { IsNextPlane coming.now.stride
        coming.now.tails.now tails.old coming.now.cells.now tails.new }
    ensures cleared { AreCleared bytes.new }
    ensures marked { IsMarked coming.now.stride
        tails.new coming.now.tails.now coming.now.cells.now soon.new }
    ensures listed { AreListed coming.now.stride soon.new list.new result }
{
    all_fit(coming.tails);
    all_fit(coming.cells);
    let mut many = 0;
    for k in 0..entries.len() {
        many = step_entry(coming, tails, bytes, entries, k, soon, list, many);
    }
    many
}

/// Steps all words of a plane by one generation; the new heads take the tails' place. `coming` has
/// the heads as tails, which they are then.
pub fn step_all(coming: &Free<'_>, tails: &mut [u64])
    requires tails { length tails.old ≡ length coming.now.cells.now }
    requires size { coming.now.stride + coming.now.stride + 2 ≤ length coming.now.cells.now }
    requires on_cells { AreOn coming.now.cells.now tails.old }
    ensures long { length tails.new ≡ length tails.old }
    ensures next { (i : ℕ)
        → number_at tails.new i
        ≡ next_word coming.now.stride coming.now.tails.now tails.old coming.now.cells.now i }
    ensures shows { IsNextPlane coming.now.stride
        coming.now.tails.now tails.old coming.now.cells.now tails.new }
{
    all_fit(coming.tails);
    let first = coming.stride + 1;
    let end = tails.len() - first;
    next_words(coming.tails, tails, coming.cells, coming.stride, first, end);
}

/// Marks the words of a plane that may change, and returns how many are listed.
pub fn mark_words(free: &Free<'_>, heads: &[u64], bytes: &mut [u8], list: &mut [usize]) -> usize
    requires heads { length heads.now ≡ length free.now.cells.now }
    requires bytes { length bytes.old ≡ length free.now.cells.now }
    requires size { free.now.stride + free.now.stride + 2 ≤ length free.now.cells.now }
    requires heads_on_cells { AreOn free.now.cells.now heads.now }
    requires tails_on_cells { AreOn free.now.cells.now free.now.tails.now }
    ensures long { length bytes.new ≡ length bytes.old }
    ensures long_list { length list.new ≡ length list.old }
    ensures listed { AreListed free.now.stride bytes.new list.new result }
    ensures marked { IsMarked free.now.stride
        heads.now free.now.tails.now free.now.cells.now bytes.new }
{
    bytes.fill(0);
    let mut many = 0;
    for i in free.stride + 1..heads.len() - free.stride - 1 {
        many = mark_lit(bytes, list, many, i, heads[i], free);
    }
    many
}
