// Circuits whose signals come in time.
use crate::annealing::annealed;
use crate::writing::write;
use lists::OutOfMemory;
use std::alloc::Global;
use strand_core::{Effort, StrandCircuit};

/// Gives a circuit bumps, so that the signals of each gate come together and those of each Cross at least 5 generations
/// apart, and notes how late all strands are. All outputs are equally late. Strands cross in another order, and registers
/// begin later, where that leaves fewer columns. The ends stand as they stood.
pub fn set_times(
    alloc: Global,
    circuit: &mut StrandCircuit,
    effort: Effort,
) -> Result<(), OutOfMemory> {
    let web = annealed(alloc, circuit, effort)?;
    write(alloc, &web, circuit)
}
