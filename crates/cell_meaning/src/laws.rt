//! Laws of lists that are rewritten: a function does nothing, and its contract is the law.
ghost use Rattle.cell_meaning.specs.Mapping.{BitsStay, MappedStays};

/// A list that rewrites one that is mapped from a sound flat netlist is mapped from that netlist
/// too.
pub fn mapped_stays()
    ensures { MappedStays }
{}

/// If the ports and nets of a list have the bits of a valuation, so do those of a list that
/// rewrites it.
pub fn bits_stay()
    ensures { BitsStay }
{}
