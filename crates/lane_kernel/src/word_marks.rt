// Marks of words that may change.
ghost use Rattle.std.specs.Prelude.{◌≡◌, ◌+◌, ◌-◌, ◌<◌, ◌≤◌, length};
ghost use Rattle.lists.specs.Items.{number_at};
ghost use Rattle.lane_kernel.specs.Around.{IsInner};
ghost use Rattle.lane_kernel.specs.Marked.{AreListed, AreMore, AreTold, AreToldAcross, IsTold};

use crate::free_cells::Free;
use crate::planes::free_of;
use crate::words::{alone, spread};

/// The mark of a word whose next heads need no other word.
pub const LIT: u8 = 1;

/// The mark of a word whose next heads need the words around it.
pub const BESIDE: u8 = 2;

/// Marks a word, unless it has this mark or a higher one, and lists it if it had none and there is
/// room. Returns how many words are listed.
#[inline(always)]
pub fn mark(
    bytes: &mut [u8],
    list: &mut [usize],
    many: usize,
    i: usize,
    byte: u8,
    stride: usize,
) -> usize
    requires inner { IsInner stride (length bytes.old) i }
    requires listed { AreListed stride bytes.old list.old many }
    ensures long { length bytes.new ≡ length bytes.old }
    ensures long_list { length list.new ≡ length list.old }
    ensures listed { AreListed stride bytes.new list.new result }
    ensures more { AreMore bytes.old bytes.new }
    ensures here { byte ≤ number_at bytes.new i }
{
    let was = bytes[i];
    if byte <= was {
        return many;
    }
    bytes[i] = byte;
    if was != 0 {
        return many;
    }
    if many == list.len() {
        return many;
    }
    list[many] = i;
    many + 1
}

// Marks a word if one of its free cells lies beside a head of another word.
fn tell(
    bytes: &mut [u8],
    list: &mut [usize],
    many: usize,
    i: usize,
    near: u64,
    free: &Free<'_>,
) -> usize
    requires place { i < length bytes.old }
    requires long { length free.now.cells.now ≡ length bytes.old }
    requires listed { AreListed free.now.stride bytes.old list.old many }
    ensures long { length bytes.new ≡ length bytes.old }
    ensures long_list { length list.new ≡ length list.old }
    ensures listed { AreListed free.now.stride bytes.new list.new result }
    ensures more { AreMore bytes.old bytes.new }
    ensures told { IsTold near free.now.tails.now free.now.cells.now bytes.new i }
{
    let met = near & free_of(free.cells[i], free.tails[i]);
    if met == 0 {
        return many;
    }
    mark(bytes, list, many, i, BESIDE, free.stride)
}

// Marks those of three words, one below another, that have a free cell beside a head of another
// word.
fn tell_three(
    bytes: &mut [u8],
    list: &mut [usize],
    many: usize,
    i: usize,
    near: u64,
    free: &Free<'_>,
) -> usize
    requires from { 0 < i }
    requires place { i + 1 < length bytes.old }
    requires long { length free.now.cells.now ≡ length bytes.old }
    requires listed { AreListed free.now.stride bytes.old list.old many }
    ensures long { length bytes.new ≡ length bytes.old }
    ensures long_list { length list.new ≡ length list.old }
    ensures listed { AreListed free.now.stride bytes.new list.new result }
    ensures more { AreMore bytes.old bytes.new }
    ensures above { IsTold near free.now.tails.now free.now.cells.now bytes.new (i - 1) }
    ensures here { IsTold near free.now.tails.now free.now.cells.now bytes.new i }
    ensures below { IsTold near free.now.tails.now free.now.cells.now bytes.new (i + 1) }
{
    let many = tell(bytes, list, many, i - 1, near, free);
    let many = tell(bytes, list, many, i, near, free);
    tell(bytes, list, many, i + 1, near, free)
}

// Marks the words to the west and to the east of word i beside whose free cells its heads stand.
#[inline(never)]
fn tell_across(
    bytes: &mut [u8],
    list: &mut [usize],
    many: usize,
    i: usize,
    heads: u64,
    free: &Free<'_>,
) -> usize
    requires inner { IsInner free.now.stride (length bytes.old) i }
    requires long { length free.now.cells.now ≡ length bytes.old }
    requires listed { AreListed free.now.stride bytes.old list.old many }
    ensures long { length bytes.new ≡ length bytes.old }
    ensures long_list { length list.new ≡ length list.old }
    ensures listed { AreListed free.now.stride bytes.new list.new result }
    ensures more { AreMore bytes.old bytes.new }
    ensures told { AreToldAcross free.now heads i bytes.new }
{
    let many = tell_three(bytes, list, many, i - free.stride, heads << 63, free);
    tell_three(bytes, list, many, i + free.stride, heads >> 63, free)
}

/// Marks the words beside word i beside whose free cells these heads of word i stand, and returns
/// how many words are listed.
pub fn tell_around(
    bytes: &mut [u8],
    list: &mut [usize],
    many: usize,
    i: usize,
    heads: u64,
    free: &Free<'_>,
) -> usize
    requires inner { IsInner free.now.stride (length bytes.old) i }
    requires long { length free.now.cells.now ≡ length bytes.old }
    requires listed { AreListed free.now.stride bytes.old list.old many }
    ensures long { length bytes.new ≡ length bytes.old }
    ensures long_list { length list.new ≡ length list.old }
    ensures listed { AreListed free.now.stride bytes.new list.new result }
    ensures more { AreMore bytes.old bytes.new }
    ensures told { AreTold free.now heads i bytes.new }
{
    let near = spread(alone(heads));
    let many = tell(bytes, list, many, i - 1, near, free);
    let many = tell(bytes, list, many, i + 1, near, free);
    let across = (heads << 63) | (heads >> 63);
    if across == 0 {
        return many;
    }
    tell_across(bytes, list, many, i, heads, free)
}
