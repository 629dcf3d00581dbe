//! The netlist of a list of cells, as one BLIF model: the list computes it, it has runs, and it breaks no rule. The
//! lines of the model say that netlist, and a text with these lines is that netlist.
//!
//! The functions here do nothing: their clauses are the laws.
//!
//! Theorem: `lists_compute`, `lifted_have_runs`, `lifted_are_faultless`, `lifted_have_no_loop`, `texts_read`, `words_are_read`;
//! definitions `lifted_design`, `lifted_lines`.
#![tactic(auto)]

ghost use Rattle.lifted_designs.specs.Clocks.{LiftedHaveNoClockFault};
ghost use Rattle.lifted_designs.specs.Computes.{ListsComputeLifted};
ghost use Rattle.lifted_designs.specs.Faultless.{LiftedAreFaultless};
ghost use Rattle.lifted_designs.specs.Lines.{LinesBreakNone, LinesSayLifted};
ghost use Rattle.lifted_designs.specs.NoLoop.{LiftedHaveNoLoop};
ghost use Rattle.lifted_designs.specs.Reads.{ReadAsLifted};
ghost use Rattle.lifted_designs.specs.Runs.{LiftedHaveRuns};
ghost use Rattle.lifted_designs.specs.Words.{WordsAreRead};

/// A list of cells that names no constant 1 computes the netlist that is lifted from it.
pub fn lists_compute()
    ensures { ListsComputeLifted }
{}

/// The lifted netlist has a run on any rows of input bits, if no two of its ports share a name.
pub fn lifted_have_runs()
    ensures { LiftedHaveRuns }
{}

/// The lifted netlist breaks no rule on models, if no two of its ports share a name.
pub fn lifted_are_faultless()
    ensures { LiftedAreFaultless }
{}

/// The lifted netlist breaks no rule on clocks: it has none.
pub fn lifted_have_no_clock_fault()
    ensures { LiftedHaveNoClockFault }
{}

/// The lifted netlist has no combinational loop, if no two of its ports share a name.
pub fn lifted_have_no_loop()
    ensures { LiftedHaveNoLoop }
{}

/// The lines of the lifted netlist make one model, the lifted one.
pub fn lines_say()
    ensures { LinesSayLifted }
{}

/// No line of the lifted netlist breaks a rule on lines.
pub fn lines_break_none()
    ensures { LinesBreakNone }
{}

/// A text with these lines is the lifted netlist, and has no fault by a rule on lines or models, if
/// no two of its ports share a name.
pub fn texts_read()
    ensures { ReadAsLifted }
{}

/// The logical lines of a text of lines of words are these lines. A word may hold `\`, but not at
/// its end.
pub fn words_are_read()
    ensures { WordsAreRead }
{}
