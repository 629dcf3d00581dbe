// How the bits of a tape run into a plan. The functions do nothing: their clauses are the laws.
ghost use Rattle.plan_waves.specs.TapeLaws.{TapesBegin, TapesRunIn, TapesShowRows};

/// A macro step of an admissible plan with a tape does what a macro step of the driven plan without
/// one does, and brings the tape one tile further east.
pub fn tapes_run_in()
    ensures { TapesRunIn }
{}

/// The edges that are lit at the beginning of an admissible plan with a tape are those that the
/// rows of the tape and the starts of the loops light.
pub fn tapes_begin()
    ensures { TapesBegin }
{}

/// Without any drive, outputs and nets of an admissible plan with a tape show what they show in the
/// plan without one that the rows of the tape drive.
pub fn tapes_show_rows()
    ensures { TapesShowRows }
{}
