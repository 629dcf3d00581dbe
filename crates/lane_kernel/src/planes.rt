// Words of a plane, in word columns.
ghost use Rattle.std.specs.Prelude.{◌≡◌, ◌+◌, ◌-◌, ◌<◌, ◌≤◌, ◌≢◌, ℕ, length};
ghost use Rattle.lists.specs.Items.{number_at};
ghost use Rattle.lane_kernel.specs.Around.{free_of, heads_alone, next_word, wires_of, AreNextWords, IsInner};

use crate::lanes::next_four;
use crate::words::{Near, new_heads};

/// Returns the cells of a word that are no tails.
pub fn free_of(cells: u64, tails: u64) -> u64
    ensures { result ≡ free_of cells tails }
{
    cells ^ (cells & tails)
}

/// Returns the cells of a word that are neither heads nor tails.
pub fn wires_of(cells: u64, heads: u64, tails: u64) -> u64
    ensures { result ≡ wires_of cells heads tails }
{
    free_of(cells, heads | tails)
}

// A word and those to the west and to the east of it.
fn words_across(plane: &[u64], i: usize, stride: usize) -> Near
    requires from { stride ≤ i }
    requires to { i + stride < length plane.now }
    ensures before { result.before ≡ number_at plane.now (i - stride) }
    ensures here { result.here ≡ number_at plane.now i }
    ensures after { result.after ≡ number_at plane.now (i + stride) }
{
    Near {
        before: plane[i - stride],
        here: plane[i],
        after: plane[i + stride],
    }
}

/// Returns the heads of word i one generation later.
pub fn next_word(heads: &[u64], tails: &[u64], cells: &[u64], i: usize, stride: usize) -> u64
    requires inner { IsInner stride (length heads.now) i }
    requires tails { length tails.now ≡ length heads.now }
    requires cells { length cells.now ≡ length heads.now }
    ensures { result ≡ next_word stride heads.now tails.now cells.now i }
{
    new_heads(
        words_across(heads, i - 1, stride),
        words_across(heads, i, stride),
        words_across(heads, i + 1, stride),
        wires_of(cells[i], heads[i], tails[i]),
    )
}

/// Returns the new heads of a word, if no other word has a head beside its wires.
pub fn heads_alone(heads: u64, wires: u64) -> u64
    ensures { result ≡ heads_alone heads wires }
{
    wires & (heads << 1 | heads >> 1)
}

/// Steps the words from place `first` up to `end` by one generation, four at once while there are
/// enough. The new heads take the tails' place.
pub fn next_words(
    heads: &[u64],
    tails: &mut [u64],
    cells: &[u64],
    stride: usize,
    first: usize,
    end: usize,
)
    requires from { stride + 1 ≤ first }
    requires order { first ≤ end }
    requires to { end + stride + 1 ≤ length heads.now }
    requires tails { length tails.old ≡ length heads.now }
    requires cells { length cells.now ≡ length heads.now }
    ensures { AreNextWords stride heads.now tails.old cells.now first end tails.new }
{
    let mut i = first;
    while i < end {
        if 4 <= end - i {
            next_four(heads, tails, cells, i, stride);
            i += 4;
        } else {
            tails[i] = next_word(heads, tails, cells, i, stride);
            i += 1;
        }
    }
}
