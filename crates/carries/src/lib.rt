//! What it means that a text carries a design, or a flat netlist, in one context or several: the pattern that it spells
//! shows its runs. Also what it means that a text runs by itself.
//!
//! The functions here do nothing: their clauses are laws of the definition.
//!
//! Theorem: `carries_cycles`, `carries_onward`, `contexts_are_isolated`; definitions `Carries`, `CarriesNets`, `CarriesFlat`, `CarriesContexts`, `RunsByItself`.
#![tactic(auto)]

ghost use Rattle.carries.specs.ByItselfLaws.{RunnersGoOn, RunsInOneWay, ZerosChangeNothing};
ghost use Rattle.carries.specs.Laws.{OutputsHaveLines};
ghost use Rattle.carries.specs.ContextLaws.{CarriesEachContext, CarriesNetsOfEachContext, OutputsAreIsolated, NetsAreIsolated, OneContextCarries, OneContextCarriesNets, OneContextCarriesFlat};
ghost use Rattle.carries.specs.Shown.{CarriesCycles, CarriesNetCycles, CarriesOnward, CarriesEachFront};

/// A text whose port table has no OUT line carries no design with an output.
pub fn outputs_have_lines()
    ensures { OutputsHaveLines }
{}

/// A pattern that carries a design shows each cycle of each run when rows of input bits drive it.
/// An output's cell is a head at generation L + t P, for each cycle t, exactly when the output's
/// bit is 1 in that cycle of the run, and it is never a head below L. If the pattern also carries
/// the design's nets, a net's cell is a head at generation offset + t P exactly when the net's bit
/// is 1 in cycle t.
pub fn carries_cycles()
    ensures outputs { CarriesCycles }
    ensures nets { CarriesNetCycles }
{}

/// When no further input bits come, the pattern goes on to show the run whose further input bits
/// are 0, without a last generation. What it shows of the first cycles does not depend on later
/// input bits.
pub fn carries_onward()
    ensures onward { CarriesOnward }
    ensures each_front { CarriesEachFront }
{}

/// A pattern that carries a design in several contexts shows each cycle of a run for each context
/// when rows of input bits drive it. An output's cell is a head at generation L + 32 c + t P, for
/// each cycle t of context c, exactly when the output's bit is 1 in that cycle of a run on the rows
/// of c, and it is never a head below L. If the pattern also carries the nets, a net's cell is a
/// head at generation offset + 32 c + t P exactly when the net's bit is 1 in that cycle.
pub fn carries_each_context()
    ensures outputs { CarriesEachContext }
    ensures nets { CarriesNetsOfEachContext }
{}

/// In a pattern that carries a design in several contexts, an output's cell is a head at the same
/// generations L + 32 c + t P under two drives that have the same rows for context c, whatever rows
/// the other contexts have. If the pattern also carries the nets, so is a net's cell at the same
/// generations offset + 32 c + t P.
pub fn contexts_are_isolated()
    ensures outputs { OutputsAreIsolated }
    ensures nets { NetsAreIsolated }
{}

/// A text carries a design, its nets or a flat netlist exactly when it carries it in one context
/// that begins with the start state.
pub fn one_context_carries()
    ensures design { OneContextCarries }
    ensures nets { OneContextCarriesNets }
    ensures flat { OneContextCarriesFlat }
{}

/// A text that runs by itself on rows of input bits has one pattern and one table. In a run that
/// goes on with bits 0, an output's cell is a head exactly at the generations L + t P of the cycles
/// t in which the output's bit is 1, without a last generation. The same holds for a net's cell,
/// with its offset in place of L. The text also runs by itself on the rows with rows of 0 after
/// them.
pub fn runners_go_on()
    ensures one_way { RunsInOneWay }
    ensures onward { RunnersGoOn }
    ensures zeros { ZerosChangeNothing }
{}
