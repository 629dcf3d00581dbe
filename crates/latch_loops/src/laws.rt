//! What is proved of places and of plans, as functions that do nothing.
ghost use Rattle.latch_loops.specs.Places.{PlacesAreLastUses};
ghost use Rattle.latch_loops.specs.Closed.{ClosingKeepsCells};
ghost use Rattle.latch_loops.specs.Padded.{PaddingKeepsCells};

/// The place of a net is at the column of the last instruction up to there that works on its lane,
/// or at the start if there is none.
pub fn places_are_last_uses()
    ensures { PlacesAreLastUses }
{}

/// A plan that is closed from a program computes the list of cells that the program computes.
pub fn closing_keeps_cells()
    ensures { ClosingKeepsCells }
{}

/// A plan to which columns without instructions are added computes the list of cells that it
/// computed.
pub fn padding_keeps_cells()
    ensures { PaddingKeepsCells }
{}
