//! Laws of lists with complements: a function does nothing, and its contract is the law.
ghost use Rattle.cell_polarity.specs.Laws.{ComplementsAreMapped, ComplementsHaveBits, ComplementsSpareOne};
ghost use Rattle.cell_polarity.specs.Zero.{NothingIsOneAtZero};

/// Where no cell reads constant 1, no other source is 1 at zero.
pub fn nothing_is_one_at_zero()
    ensures { NothingIsOneAtZero }
{}

/// A list with complements, of one that is mapped from a sound flat netlist, is mapped from that
/// netlist too, if it is no longer than the weight of the covers allows. If the ports and nets of
/// the one have certain bits, so do those of the other.
pub fn complements_are_mapped()
    ensures mapped { ComplementsAreMapped }
    ensures bits { ComplementsHaveBits }
{}

/// Where no needed source is 1 at zero, a list with complements does not name constant 1, and it has
/// at most two cells for each cell, and one for each kept source.
pub fn complements_spare_one()
    ensures { ComplementsSpareOne }
{}
