//! Laws of parts: each function does nothing, and its contract is the law.
ghost use Rattle.gate_laws.specs.PartLaws.{PartsUnite, PartsStartLater};
ghost use Rattle.gate_laws.specs.PortWires.{PartsFeed};
ghost use Rattle.gate_laws.specs.PartTimes.{PartsBeginLater};
ghost use Rattle.gate_laws.specs.PartJoins.{PartsJoin, LoneCellsEndWires};

/// Wires from outputs of a part to inputs of it make another part, without these inputs. Each wire
/// is a row of latches, as many as the cycles that it is long, which begins with the output's net
/// and ends with the input's, and which starts as the electrons on the wire say; a wire that is no
/// cycle long is a plain connection. Whatever the bits of the inputs that are left, the wires bring
/// such bits and no others, and the outputs show what the part makes of both. If the part makes
/// nothing of later cycles, neither does the new one.
pub fn parts_feed()
    ensures { PartsFeed }
{}

/// Two parts that stand apart are one part, which makes what both make.
pub fn parts_unite()
    ensures { PartsUnite }
{}

/// A part without electrons is also a part if all its ports begin as many generations later.
pub fn parts_start_later()
    ensures { PartsStartLater }
{}

/// Each input of a part may begin some cycles later: before, the part gets 0 from it. Each output
/// may begin some cycles later if its bits before are then 0. If no later cycle counts for the
/// part, and no output begins more cycles later than an input, none counts then either.
pub fn parts_begin_later()
    ensures { PartsBeginLater }
{}

/// Two parts that stand apart, and wires from outputs of the first to the first inputs of the
/// second, are one part, with the outputs of both. The second gets what the first makes: by each
/// wire its start bits, and then the bits of its output. Nothing is fed back, so the meaning can be
/// written out. List a fed input among the second's outputs first if it is to be shown. A lone cell
/// may be the first: then it is an input, whose bits come to the second by wires.
pub fn parts_join()
    ensures { PartsJoin }
{}

/// A wire from an output of a part to a lone cell makes the cell one more output, which shows the
/// wire's start bits and then the bits of the output. So early outputs can be brought to one
/// latency, and another wire may begin there.
pub fn lone_cells_end_wires()
    ensures { LoneCellsEndWires }
{}
