// Truth tables of up to six nets, as words of 64 bits.
ghost use Rattle.std.specs.Prelude.{◌≡◌, ◌<◌, ◌≤◌, ◌||◌, ◌&&◌, not, ℕ, Bool, List, length};
ghost use Rattle.lists.specs.Items.{flag_at};
ghost use Rattle.lists.specs.Bits.{has_bit};
ghost use Rattle.cell_core.specs.Tables.{table_bit};

// The tables of the nets themselves.
const NETS: [u64; 6] = [
    0xaaaa_aaaa_aaaa_aaaa,
    0xcccc_cccc_cccc_cccc,
    0xf0f0_f0f0_f0f0_f0f0,
    0xff00_ff00_ff00_ff00,
    0xffff_0000_ffff_0000,
    0xffff_ffff_0000_0000,
];

/// Returns the table that is 1 where at least one of the two is 1.
pub fn or_words(a: u64, b: u64) -> u64
    ensures { (n : ℕ) → has_bit result n ≡ (has_bit a n || has_bit b n) }
{
    a | b
}

/// Returns the table that is 1 where exactly one of the two is 1.
pub fn xor_words(a: u64, b: u64) -> u64
    ensures { (n : ℕ) → has_bit result n ≡
        ((has_bit a n || has_bit b n) && not (has_bit a n && has_bit b n)) }
{
    a ^ b
}

/// Returns the table that is 1 where both are 1.
pub fn and_words(a: u64, b: u64) -> u64
    ensures { (n : ℕ) → has_bit result n ≡ (has_bit a n && has_bit b n) }
{
    a & b
}

/// Returns the table that is 1 where the first is 1 and the second is 0.
pub fn and_not_words(a: u64, b: u64) -> u64
    ensures { (n : ℕ) → n < 64 → has_bit result n ≡ (has_bit a n && not (has_bit b n)) }
{
    a & !b
}

/// Returns the table of the net at place i.
pub fn net_word(i: usize) -> u64
    requires { i < 6 }
    ensures { (bits : List Bool) → length bits ≤ 6 → table_bit bits result ≡ flag_at bits i }
{
    NETS[i]
}
