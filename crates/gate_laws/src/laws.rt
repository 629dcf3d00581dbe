//! Laws of signals, wires, gates and crossings: each function does nothing, and its contract is the law.
ghost use Rattle.gate_laws.specs.Laws.{PlanesUnite, WiresFeed, AnswersGoSlower};
ghost use Rattle.gate_laws.specs.Gates.{GatesAnswerEachRow, LawfulAreGates};
ghost use Rattle.gate_laws.specs.Crossings.{SpreadCrossingsAreLawful, CrossingsAnswerEachRow, CrossingsAreGates, CrossingsCopy};

/// Two planes that stand apart carry their signals side by side.
pub fn planes_unite()
    ensures { PlanesUnite }
{}

/// Wires from outputs to inputs take the place of the drive of these inputs, where the inputs'
/// signals are those that the wires bring. This speaks of one run, and that there is such a run is
/// what `parts_feed` says. List a fed input among the outputs first: then another wire can begin
/// there.
pub fn wires_feed()
    ensures { WiresFeed }
{}

/// A plane without electrons that answers row by row does so at each multiple of its period.
pub fn answers_go_slower()
    ensures { AnswersGoSlower }
{}

/// A gate that keeps its law is a part at every period from its time on, and answers each row of
/// bits on its own.
pub fn gates_answer_each_row()
    ensures { GatesAnswerEachRow }
{}

/// So it is a gate for each of these periods.
pub fn lawful_are_gates()
    ensures { LawfulAreGates }
{}

/// A crossing that keeps its law is a gate that keeps the law of gates for each difference of its
/// inputs' generations that is not below its time.
pub fn spread_crossings_are_lawful()
    ensures { SpreadCrossingsAreLawful }
{}

/// At each period a crossing answers each row of bits, for each difference of its inputs'
/// generations, if these are far enough apart within each period.
pub fn crossings_answer_each_row()
    ensures { CrossingsAnswerEachRow }
{}

/// So it is a gate for this period.
pub fn crossings_are_gates()
    ensures { CrossingsAreGates }
{}

/// Each output that an input lights has the bit of this input.
pub fn crossings_copy()
    ensures { CrossingsCopy }
{}
