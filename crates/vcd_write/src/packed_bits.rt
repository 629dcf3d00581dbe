// Bits in words of memory.
ghost use Rattle.std.specs.Prelude.{◌≡◌, ◌<◌, ◌/◌, ◌==◌, ◌||◌, ℕ, false, IfOk, length, replicate};
ghost use Rattle.lists.specs.Items.{flag_at};
ghost use Rattle.lane_kernel.specs.Rows.{is_set};

use std::alloc::{AllocError, Global};
use std::marker::Model;

/// The number of bits in a word.
const WORD_BITS: usize = 64;

/// A list of bits, 64 of them in a word of memory. Contracts see it as a list.
#[derive(Drop)]
pub struct PackedBits {
    words: Vec<u64>,
    count: usize,
}

impl Model for PackedBits {
    ghost use Rattle.std.specs.Prelude.{Bool, List, ◌*◌, ◌≤◌, length};
    ghost use Rattle.vcd_write.specs.Bits.{unpacked};

    ghost Value = { List Bool };

    ghost view = { λ bits. unpacked bits.count bits.words.items };

    ghost invariant = { λ bits. bits.count ≤ 64 * length bits.words.items };
}

// Whether a bit of words is set.
fn is_set(words: &[u64], place: usize) -> bool
    requires { place / 64 < length words.now }
    ensures { result ≡ is_set words.now place }
{
    (words[place / WORD_BITS] >> (place % WORD_BITS)) & 1 == 1
}

// Sets a bit of words.
fn set_bit(words: &mut Vec<u64>, place: usize)
    requires { place / 64 < length words.old.items }
    ensures long { length words.new.items ≡ length words.old.items }
    ensures bits { (k : ℕ) → is_set words.new.items k ≡ (k == place || is_set words.old.items k) }
{
    words[place / WORD_BITS] |= 1 << (place % WORD_BITS);
}

// `count` words of 0.
fn zero_words(alloc: Global, count: usize) -> Result<Vec<u64>, AllocError>
    ensures { IfOk result (λ words. words.items ≡ replicate count 0) }
{
    Ok(vec![in alloc; 0; count]?)
}

impl PackedBits {
    /// Makes `count` bits that are all 0.
    pub fn zeros(alloc: Global, count: usize) -> Result<PackedBits, AllocError>
        ensures { IfOk result (λ bits. bits ≡ replicate count false) }
    {
        let words = zero_words(alloc, count.div_ceil(WORD_BITS))?;
        Ok(PackedBits { words, count })
    }

    /// Returns the number of bits.
    pub fn len(&self) -> usize
        ensures { result ≡ length self.now }
    {
        self.count
    }

    /// Returns the bit at a place.
    pub fn get(&self, place: usize) -> bool
        requires { place < length self.now }
        ensures { result ≡ flag_at self.now place }
    {
        is_set(&self.words, place)
    }

    /// Sets the bit at a place to 1.
    pub fn set(&mut self, place: usize)
        requires { place < length self.old }
        ensures long { length self.new ≡ length self.old }
        ensures bits { (k : ℕ) → flag_at self.new k ≡ (k == place || flag_at self.old k) }
    {
        set_bit(&mut self.words, place);
    }
}
