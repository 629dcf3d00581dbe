// Annealing: a change that makes the drawing larger may be kept, the larger it is and the later it
// comes, the less often (Kirkpatrick, Gelatt, Vecchi 1983).
use cell_core::Draws;

// The temperature at the start of the search and at its end, in 256ths of a column.
const HOT: u64 = 410;

const COLD: u64 = 26;

// The negated natural logarithms of (2i + 1) / 128, in 256ths.
const LOSSES: [u64; 64] = [
    1242, 960, 830, 743, 679, 628, 585, 548, 516, 488, 462, 439, 418, 398, 380, 363, 347, 331, 317,
    304, 291, 279, 267, 256, 245, 235, 225, 216, 207, 198, 189, 181, 173, 165, 158, 150, 143, 136,
    130, 123, 117, 110, 104, 98, 93, 87, 81, 76, 70, 65, 60, 55, 50, 45, 41, 36, 31, 27, 23, 18,
    14, 10, 6, 2,
];

/// Draws the negated logarithm of a number from 0 to 1, in 256ths.
pub fn loss(draws: &mut Draws) -> u64 {
    LOSSES.get(draws.below(64)).copied().unwrap_or(0)
}

/// The part of the search that a climb takes, in thousandths of its work.
#[derive(Clone, Copy)]
pub struct Cooling {
    pub from: usize,
    pub upto: usize,
}

impl Cooling {
    /// Returns the temperature when so much of the climb's work is done, in 256ths of a column. It
    /// falls evenly.
    pub fn heat(self, done: usize, work: usize) -> u64 {
        let share = done.saturating_mul(1000) / work.max(1);
        let width = self.upto.saturating_sub(self.from);
        let so_far = self.from.saturating_add(width.saturating_mul(share) / 1000);
        let left = 1000u64.saturating_sub(so_far as u64);
        COLD.saturating_add((HOT - COLD).saturating_mul(left) / 1000)
    }
}
