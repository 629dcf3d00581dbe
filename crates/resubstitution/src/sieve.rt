// A sieve of words: a small table that tells for most words that they are not in a set.

/// A sieve: a bit for each of 1,024 places, of which each word has one.
#[derive(Drop)]
pub struct Sieve {
    bits: [u64; 16],
}

// The place of a word: one of 16 words of 64 bits, and the bit in it.
fn place(word: u64) -> (usize, u64) {
    let hash = word.wrapping_mul(0x9e37_79b9_7f4a_7c15) >> 54;
    let bit = (hash & 63) as u32;
    ((hash >> 6) as usize, 1_u64.wrapping_shl(bit))
}

impl Sieve {
    /// Makes a sieve of no words.
    pub fn new() -> Sieve {
        Sieve { bits: [0; 16] }
    }

    /// Adds a word.
    pub fn add(&mut self, word: u64) {
        let (at, bit) = place(word);
        if let Some(bits) = self.bits.get_mut(at) {
            *bits |= bit;
        }
    }

    /// Returns whether a word may have been added. It is true for each word that was added.
    pub fn has(&self, word: u64) -> bool {
        let (at, bit) = place(word);
        match self.bits.get(at) {
            Some(bits) => *bits & bit != 0,
            None => false,
        }
    }
}
