// Laws of VCD texts, and of the waves of nets. The functions do nothing: their clauses are the
// laws.
ghost use Rattle.vcd_write.specs.Laws.{IdsAreDistinct, ReadsAsOneForm, SameWavesAreWrittenAlike, TextsSayWaves};
ghost use Rattle.vcd_write.specs.NetWaves.{NetsHaveTheirBits};
ghost use Rattle.vcd_write.specs.References.{ReferencesAreWords};

/// The text of variables reads as these variables, and as nothing else: each has its bit at the
/// time of each cycle.
pub fn texts_say_waves()
    ensures says { TextsSayWaves }
    ensures alike { SameWavesAreWrittenAlike }
{}

/// Each text reads as at most one form.
pub fn texts_read_as_one_form()
    ensures { ReadsAsOneForm }
{}

/// No two variables have one id.
pub fn ids_are_distinct()
    ensures { IdsAreDistinct }
{}

/// Names with escapes are words: they can stand between two spaces of a line.
pub fn references_are_words()
    ensures { ReferencesAreWords }
{}

/// If there are n nets, variable `c n + i` is net i in context c, with the bits that the net's cell
/// shows.
pub fn nets_have_their_bits()
    ensures { NetsHaveTheirBits }
{}
