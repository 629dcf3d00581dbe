// Periods that all crossings of a circuit accept.

use crate::loops::{Loops, late_of};
use strand_core::{East, Layout, StrandCircuit, Tile, TileKind};

// Generations that two signals of a crossing are apart at least, also modulo the period.
const LEAST_SKEW: u32 = 5;

/// The least period of all.
pub const LEAST_PERIOD: u32 = 10;

// How many periods are tried at most.
const TRIES: u32 = 4096;

fn is_crossed_at(circuit: &StrandCircuit, tile: Tile, period: u32) -> bool {
    if tile.kind != TileKind::Cross {
        return true;
    }
    let (upper, lower) = (late_of(circuit, tile.ins[0]), late_of(circuit, tile.ins[1]));
    let apart = upper.abs_diff(lower) % period.max(1);
    apart >= LEAST_SKEW && apart.saturating_add(LEAST_SKEW) <= period
}

/// Returns whether all crossings accept a period.
pub fn accepts(circuit: &StrandCircuit, period: u32) -> bool {
    for tile in &circuit.tiles {
        if !is_crossed_at(circuit, *tile, period) {
            return false;
        }
    }
    true
}

/// Returns the least period from this one on that all crossings accept, if one is found.
pub fn accepted_period(circuit: &StrandCircuit, least: u32) -> Option<u32> {
    for more in 0..TRIES {
        let period = least.saturating_add(more);
        if accepts(circuit, period) {
            return Some(period);
        }
    }
    None
}

/// Returns the least multiple of 32 from a period on that all crossings accept, if it is at most a twentieth over it.
pub fn round_period(circuit: &StrandCircuit, period: u32) -> Option<u32> {
    let most = period.saturating_add(period / 20) / 32;
    for number in period.div_ceil(32)..most.saturating_add(1) {
        let round = number.saturating_mul(32);
        if accepts(circuit, round) {
            return Some(round);
        }
    }
    None
}

/// Returns the least period at which the data of each register leave the circuit before the next cycle begins.
pub fn least_period(circuit: &StrandCircuit, layout: &Layout, loops: &Loops) -> u32 {
    let mut least = LEAST_PERIOD;
    if loops.loops.is_empty() {
        return least;
    }
    for end in &circuit.east {
        if let (Some(_), East::Register(_)) = (end.strand, end.is) {
            let late = late_of(circuit, end.strand);
            least = least.max(layout.width.saturating_add(late).saturating_add(1));
        }
    }
    least
}
