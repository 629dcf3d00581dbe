// Annealing: a change that makes the circuit heavier may be kept, the heavier it makes it and the later it comes, the
// less often (Kirkpatrick, Gelatt, Vecchi 1983).
use cell_core::Draws;

// The temperature at the start of the search and at its end, in thousandths of a column.
const HOT: u64 = 600;

const COLD: u64 = 2;

// For each tile of a circuit the search computes so many tiles' times.
const WORK_OF_TILE: u64 = 3_000;

// The negated natural logarithms of (2i + 1) / 128, in 256ths.
const LOSSES: &[u64] = &[
    1242, 960, 830, 743, 679, 628, 585, 548, 516, 488, 462, 439, 418, 398, 380, 363, 347, 331, 317,
    304, 291, 279, 267, 256, 245, 235, 225, 216, 207, 198, 189, 181, 173, 165, 158, 150, 143, 136,
    130, 123, 117, 110, 104, 98, 93, 87, 81, 76, 70, 65, 60, 55, 50, 45, 41, 36, 31, 27, 23, 18,
    14, 10, 6, 2,
];

// Draws the negated logarithm of a number from 0 to 1, in 256ths.
fn loss(draws: &mut Draws) -> u64 {
    LOSSES.get(draws.below(64)).copied().unwrap_or(0)
}

/// Returns how many tiles' times a search computes in a circuit of so many tiles.
pub fn work_of(tiles: usize) -> u64 {
    WORK_OF_TILE.saturating_mul(tiles as u64)
}

/// Draws how much heavier a change may make the circuit when so much of the work is done. The temperature falls as the
/// square of what is left.
pub fn most_more(draws: &mut Draws, done: u64, work: u64) -> u64 {
    let share = done.saturating_mul(1000) / work.max(1);
    let left = 1000u64.saturating_sub(share);
    let heat = HOT.saturating_mul(left).saturating_mul(left) / 1_000_000;
    heat.saturating_add(COLD).saturating_mul(loss(draws)) / 256
}
