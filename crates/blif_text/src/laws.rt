// Laws of the definitions.
ghost use Rattle.blif_text.specs.Laws.{DesignOrFault, NeverBoth};

/// The text of a design has no fault by a rule on lines or models.
#[tactic(auto, using(crate::proofs::OneFault::never_both))]
pub fn never_design_and_fault()
    ensures { NeverBoth }
{}

/// A text is a design, or has a fault by a rule on lines or models.
pub fn design_or_fault()
    ensures { DesignOrFault }
{}
