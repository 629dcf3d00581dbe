//! What definitions of lower crates come to: laws that no code needs. The functions do nothing: each
//! has a law as its contract.
ghost use Rattle.blif_text.specs.Laws.{LineFaultIsFirst, NoLineFault, OneDesign};
ghost use Rattle.column_packer.specs.Packing.{NumbersAreFirst};
ghost use Rattle.flat_designs.specs.Laws.{DesignsHaveOneValuation, FirstsAreRoots};
ghost use Rattle.netlist_meaning.specs.Laws.{WeightIsSumOverAll};
ghost use Rattle.netlist_meaning.specs.Roots.{RootsAreNearest};

/// A text has at most one design.
pub fn texts_have_one_design()
    ensures { OneDesign }
{}

/// The fault of lines by a rule on lines is exactly that of the earliest line that breaks one, by
/// the rule of the lowest number. Lines have none exactly if no line breaks a rule.
pub fn line_faults_are_first()
    ensures first { LineFaultIsFirst }
    ensures none { NoLineFault }
{}

/// The weight of a design that is not recursive is the sum of its models' own weights over all
/// places: over a list that has each place exactly once. A design without a fault is not recursive
/// (`faultless_are_not_recursive` of `flat_designs`).
pub fn weights_are_sums()
    ensures { WeightIsSumOverAll }
{}

/// If its covers have an order, a design without a fault has exactly one valuation for given bits of
/// its inputs and latches, up to the bits of clock nets.
pub fn designs_have_one_valuation()
    ensures { DesignsHaveOneValuation }
{}

/// The root of a net is joined with it, and any other net that is joined with it lies deeper: so of
/// a class the root is the net nearest the main model. In a flat netlist it is the first net of its
/// class.
pub fn roots_are_nearest()
    ensures nearest { RootsAreNearest }
    ensures firsts { FirstsAreRoots }
{}

/// `pack` puts each instruction into the first column after the last use of its lanes: the number
/// by which it does so is greater than those of the earlier instructions that share a lane with it,
/// and is 0, or one more than one of these.
pub fn instructions_come_first()
    ensures { NumbersAreFirst }
{}
