//! What is proved of start words, for every design. The functions do nothing: each has a law as its contract.

ghost use Rattle.start_words.specs.Laws.{LatchesAreFlat, NamedLatchesAreJoined, NoWordsMeanStart, StartsAreFlat};

/// A name names the flat latch whose output is joined with the main model's net of that name, and
/// no latch exactly if there is none.
pub fn named_latches_are_joined()
    ensures { NamedLatchesAreJoined }
{}

/// Names name the same latches in a design and in its flat netlist, so words have the same faults
/// in both.
pub fn latches_are_flat()
    ensures { LatchesAreFlat }
{}

/// The bits of the flat latches, in order, are those of the state that the words give.
pub fn starts_are_flat()
    ensures { StartsAreFlat }
{}

/// Without start words, the latches start in the design's start state.
pub fn no_words_mean_start()
    ensures { NoWordsMeanStart }
{}
