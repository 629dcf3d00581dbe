//! A law of lists of cells: the function does nothing, and its contract is the law.
ghost use Rattle.cell_core.specs.Adding.{AppendingKeepsBits};

/// Cells that are added change the bit of no source that is there.
pub fn appending_keeps_bits()
    ensures { AppendingKeepsBits }
{}
