// Whole rows.
ghost use Rattle.std.specs.Prelude.{◌≡◌, ◌+◌, ◌<◌, ◌&&◌, ◌||◌, not, ℕ, length};
ghost use Rattle.lane_kernel.specs.Rows.{is_one_or_two, is_set, row_state, heads_in_rows, next_in_rows, AreDisjoint};
ghost use Rattle.lane_kernel.specs.Steps.{AreEquallyLong, AreWordsStepped, IsStepped};

use crate::lanes::step_four;
use crate::words::{new_heads, new_wires, words_near};

// Steps word j of a row; its new heads take the tails' place.
fn step_one(
    above: &[u64],
    heads: &[u64],
    below: &[u64],
    tails: &mut [u64],
    wires: &mut [u64],
    j: usize,
)
    requires within { j < length heads.now }
    requires rows { AreEquallyLong above.now heads.now below.now tails.old wires.old }
    ensures { AreWordsStepped j (j + 1)
        above.now heads.now below.now tails.old wires.old tails.new wires.new }
{
    let fired = new_heads(
        words_near(above, j),
        words_near(heads, j),
        words_near(below, j),
        wires[j],
    );
    wires[j] = new_wires(wires[j], tails[j], fired);
    tails[j] = fired;
}

/// Steps the words of a row as if it stood alone, four at once while there are enough, and then one
/// at a time. The new heads take the tails' place, and the new wires the wires' place.
pub fn step_words(above: &[u64], heads: &[u64], below: &[u64], tails: &mut [u64], wires: &mut [u64])
    requires { AreEquallyLong above.now heads.now below.now tails.old wires.old }
    ensures { IsStepped
        above.now heads.now below.now tails.old wires.old tails.new wires.new }
{
    let mut j = 0;
    while j < heads.len() {
        if 0 < j && 5 <= heads.len() - j {
            step_four(above, heads, below, tails, wires, j);
            j += 4;
        } else {
            step_one(above, heads, below, tails, wires, j);
            j += 1;
        }
    }
}

/// Computes the next generation of a row between two others, with nothing beyond the rows' ends.
/// Bit i of word j is cell 64 j + i. A new head stands where a wire has one or two heads among its
/// eight neighbours, a new wire where a wire becomes no head or a tail stood, and the new tails are
/// the old heads. If no cell has its bit in two rows, this is the rule of Wireworld, and no cell
/// has its bit in two rows afterwards.
pub fn step_rows(
    above: &[u64],
    heads: &[u64],
    below: &[u64],
    tails: &[u64],
    wires: &[u64],
    new_heads: &mut [u64],
    new_wires: &mut [u64],
)
    requires rows { AreEquallyLong above.now heads.now below.now tails.now wires.now }
    requires new_heads { length new_heads.old ≡ length heads.now }
    requires new_wires { length new_wires.old ≡ length heads.now }
    ensures heads { (x : ℕ)
        → is_set new_heads.new x
        ≡ (
        is_set wires.now x
        && is_one_or_two (heads_in_rows above.now heads.now below.now tails.now wires.now x)
        ) }
    ensures wires { (x : ℕ)
        → is_set new_wires.new x
        ≡ ((is_set wires.now x && not (is_set new_heads.new x)) || is_set tails.now x) }
    ensures apart { AreDisjoint heads.now tails.now wires.now
        → AreDisjoint new_heads.new heads.now new_wires.new }
    ensures cells { AreDisjoint heads.now tails.now wires.now
        → (x : ℕ)
        → row_state new_heads.new heads.now new_wires.new x
        ≡ next_in_rows above.now heads.now below.now tails.now wires.now x }
{
    new_heads.copy_from_slice(tails);
    new_wires.copy_from_slice(wires);
    step_words(above, heads, below, new_heads, new_wires);
}
