// The search for a drawing of a list of cells.

use cell_core::CellList;
use lists::OutOfMemory;
use std::alloc::Global;
use strand_core::{Effort, StrandCircuit};
use strand_drawings::{Drawn, drawn_circuit};
use strand_graphs::strand_circuit;
use strand_rows::laid_out;
use strand_times::set_times;

// The seed of the search's draws: a text gives the same circuit everywhere.
const SEED: u64 = 1;

// Circuits of more tiles are not laid out: it would take too long.
const MOST_TILES: usize = 48_000;

// The circuit of strands of a list, with its times.
fn timed_circuit(
    alloc: Global,
    list: &CellList,
    effort: Effort,
) -> Result<Option<StrandCircuit>, OutOfMemory> {
    let Some(mut circuit) = strand_circuit(alloc, list, SEED, effort)? else {
        return Ok(None);
    };
    match set_times(alloc, &mut circuit, effort) {
        Ok(()) => Ok(Some(circuit)),
        Err(error) => {
            drop(circuit);
            Err(error)
        }
    }
}

// The drawing of the circuit of a list, if it is not too large.
fn drawn_of(
    alloc: Global,
    list: &CellList,
    circuit: &StrandCircuit,
    effort: Effort,
) -> Result<Option<Drawn>, OutOfMemory> {
    let Ok(outputs) = u32::try_from(list.outs.len()) else {
        return Ok(None);
    };
    if circuit.tiles.len() > MOST_TILES {
        return Ok(None);
    }
    let layout = laid_out(alloc, circuit, effort)?;
    let drawn = drawn_circuit(alloc, circuit, &layout, list.inputs, outputs);
    drop(layout);
    drawn
}

/// Draws a list of cells, if the search finds a drawing.
pub fn draw_list(
    alloc: Global,
    list: &CellList,
    effort: Effort,
) -> Result<Option<Drawn>, OutOfMemory> {
    match timed_circuit(alloc, list, effort)? {
        Some(circuit) => {
            let drawn = drawn_of(alloc, list, &circuit, effort);
            drop(circuit);
            drawn
        }
        None => Ok(None),
    }
}
