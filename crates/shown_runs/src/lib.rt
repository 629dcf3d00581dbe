//! What a pattern shows under streams of bits, in each context, is what its netlist gives under them; and what a
//! pattern that runs by itself shows.
//!
//! The functions here do nothing: their clauses are the laws.
//!
//! Theorem: `carriers_show_contexts`, `carriers_show_runs`, `carriers_show_nets`, `carriers_are_quiet`, `streams_match`, `runners_show_runs`.
#![tactic(auto)]

ghost use Rattle.shown_runs.specs.ByItself.{RunnersShowRuns};
ghost use Rattle.shown_runs.specs.ShownRuns.{CarriersAreQuiet, CarriersShowContexts, CarriersShowNets, CarriersShowNetsInContexts, CarriersShowRuns, OneContextIsQuiet, StreamsAreFor, StreamsMatch, StreamsMatchInContexts};

/// If a text carries a design in contexts, then under streams for its inputs the design has a run
/// in each context, from the context's start on. In every such run the bits that an output of the
/// pattern shows in the context are those of the main output of its name.
pub fn carriers_show_contexts()
    ensures { CarriersShowContexts }
{}

/// If a text carries a design, then under streams for its inputs the design has a run. In every
/// such run the bits that an output of the pattern shows are those of the main output of its name.
pub fn carriers_show_runs()
    ensures { CarriersShowRuns }
{}

/// If a text carries the nets of a design, in contexts or in one, then each net line is that of a
/// net that is no clock net, and under streams the line's cell shows the net's bits in every run.
pub fn carriers_show_nets()
    ensures contexts { CarriersShowNetsInContexts }
    ensures one { CarriersShowNets }
{}

/// If a text carries a design, in contexts or in one, then streams for its inputs inject at
/// conductors alone.
pub fn carriers_are_quiet()
    ensures contexts { CarriersAreQuiet }
    ensures one { OneContextIsQuiet }
{}

/// If a text carries a design, then words give the inputs of its table the same streams as the
/// inputs of the design.
pub fn streams_match()
    ensures table { StreamsAreFor }
    ensures contexts { StreamsMatchInContexts }
    ensures one { StreamsMatch }
{}

/// If a text runs by itself as a design does on rows of input bits, then for any number of cycles
/// its outputs and nets show the bits of every run on the rows and on rows of 0 after them, and no
/// stream is injected.
pub fn runners_show_runs()
    ensures { RunnersShowRuns }
{}
