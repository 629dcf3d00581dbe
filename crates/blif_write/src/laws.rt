//! A law of lifted texts: the function does nothing, and its contract is the law.
ghost use Rattle.blif_write.specs.Laws.{LiftedTextsRead};

/// The text of a lifted netlist is that netlist, and has no fault by a rule on lines or models, if
/// the names of its ports are words and no two ports share one.
pub fn lifted_texts_read()
    ensures { LiftedTextsRead }
{}
