// How far it is from tiles to the east.

use crate::shapes::wide;
use std::alloc::{AllocError, Global};
use strand_core::{Strand, StrandCircuit, at};

// The tail of the tile that uses a strand.
fn tail_of(strands: &[Strand], tails: &[u32], strand: Option<u32>) -> u32 {
    let number = strand.unwrap_or(u32::MAX);
    match strands.get(number as usize) {
        Some(
            Strand {
                user: Some(user),
                ..
            },
        ) => at(tails, *user),
        _ => 0,
    }
}

// Finds how many columns there are at least from each tile to the east.
fn find_tails(circuit: &StrandCircuit, tails: &mut [u32]) {
    for number in (0..circuit.tiles.len()).rev() {
        let tile = circuit.tiles[number];
        let upper = tail_of(&circuit.strands, tails, tile.outs[0]);
        let lower = tail_of(&circuit.strands, tails, tile.outs[1]);
        if number < tails.len() {
            let own = wide(tile.kind).saturating_add(2);
            tails[number] = upper.max(lower).saturating_add(own);
        }
    }
}

/// Returns how many columns there are at least from each tile to the east.
pub fn tails_of(alloc: Global, circuit: &StrandCircuit) -> Result<Vec<u32>, AllocError> {
    let mut tails = vec![in alloc; 0u32; circuit.tiles.len()]?;
    find_tails(circuit, &mut tails);
    Ok(tails)
}
