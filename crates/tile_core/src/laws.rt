//! Laws of tiles: each function does nothing, and its contract is the law.
ghost use Rattle.tile_core.specs.Laws.{PortsDiffer};

/// The two entries of a tile of two lanes are two cells, and so are its two exits.
pub fn ports_differ()
    ensures { PortsDiffer }
{}
