// Random numbers by which searches choose: each seed gives one sequence, on every machine.
ghost use Rattle.std.specs.Prelude.{◌<◌, ◌≡◌};

/// The generator splitmix64 (Steele, Lea, Flood 2014).
#[derive(Clone, Copy)]
pub struct Draws {
    state: u64,
}

impl Draws {
    /// Begins the sequence of a seed.
    pub fn new(seed: u64) -> Draws {
        Draws { state: seed }
    }

    fn next(&mut self) -> u64 {
        self.state = self.state.wrapping_add(0x9e37_79b9_7f4a_7c15);
        let mixed = (self.state ^ (self.state >> 30)).wrapping_mul(0xbf58_476d_1ce4_e5b9);
        let mixed = (mixed ^ (mixed >> 27)).wrapping_mul(0x94d0_49bb_1331_11eb);
        mixed ^ (mixed >> 31)
    }

    /// Draws a number below `limit`, or 0 if `limit` is 0.
    pub fn below(&mut self, limit: usize) -> usize
        ensures below { 0 < limit → result < limit }
        ensures zero { limit ≡ 0 → result ≡ 0 }
    {
        (self.next() % (limit.max(1) as u64)) as usize
    }

    /// Draws `true` or `false`.
    pub fn coin(&mut self) -> bool {
        self.below(2) == 0
    }
}
