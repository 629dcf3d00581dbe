// Why a band did not move on.
use thiserror::Error;

/// A neighbour for which a band has to wait: its number from the top, and its generation, which is
/// neither the band's nor one more.
#[derive(Clone, Copy, Debug, Error)]
#[error("band {neighbour} is at generation {generation}")]
pub struct NotReady {
    pub neighbour: usize,
    pub generation: u64,
}

/// Why a band was not skipped.
#[derive(Clone, Copy, Debug, Error)]
pub enum NotSkipped {
    /// The band has to wait for a neighbour; this is looked at first.
    #[error(transparent)]
    NotReady(NotReady),
    /// This cell, by its column and row in the pattern, may change the band: it is a head or a tail
    /// of the band, a head of a neighbour's row beside it, or a cell of the band where an injection
    /// is due at the next generation.
    #[error("cell {x} {y} is awake")]
    Awake { x: u64, y: u64 },
}
