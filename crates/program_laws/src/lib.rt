//! What the commands print of one another's outputs: the laws between them.
//!
//! The functions here do nothing: their clauses are the laws.
//!
//! Theorem: `carriers_print_alike`, `carriers_print_runs`, `compiled_are_lifted`, `carried_evaluate_alike`.
#![tactic(auto)]

pub mod laws;

ghost use Rattle.program_laws.specs.AigPrints.{AigCarriersRunQuietly, AigsAreLifted, AigsPrintRuns, AigsRunQuietly, CarriersPrintAigRuns};
ghost use Rattle.program_laws.specs.DumpsNets.{CarriersDumpNets, CompiledDumpNets};
ghost use Rattle.program_laws.specs.EvaluatesAlike.{CarriedEvaluateAlike, LiftedEvaluateAlike};
ghost use Rattle.program_laws.specs.Isolated.{CompiledPrintApart, ContextsPrintApart, NetsPrintApart};
ghost use Rattle.program_laws.specs.LiftsBack.{CompiledAreLifted, CompiledNamesAreGood, LiftedInOneWay, LiftedPrintAlike};
ghost use Rattle.program_laws.specs.NetlistRuns.{NetlistRunsAgree};
ghost use Rattle.program_laws.specs.OneAnswer.{DumpsAreProbed, EvalPrintsOne, ProbePrintsOne, SimulatePrintsOne, VcdPrintsOne, WindowPrintsOne};
ghost use Rattle.program_laws.specs.Onward.{ContextsGoOn, ContextsShowEachFront, NetsGoOn, NetsShowEachFront};
ghost use Rattle.program_laws.specs.PrintsAlike.{CarriersPrintAlike, CarriersPrintNets, CarriersPrintNetsInContexts, CarriersPrintRuns, CarriersRunQuietly, CompiledPrintAlike, CompiledPrintNets, CompiledPrintRuns, CompiledRunQuietly};
ghost use Rattle.program_laws.specs.ShownAigs.{CarriersShowAigRuns};
ghost use Rattle.program_laws.specs.TapePrints.{TapesPrintAlike, TapesPrintRuns};

use aiger_meaning::laws::flats_of_aigs_are_lowered;
use aiger_text::laws::read_aigs_are_sound;
use lift_carries::compiled_are_drawings;
use netlist_plans::names_are_words;
use netlist_text::laws::texts_are_decided;
use plan_carries::plans_have_ports;
use shown_runs::{
    carriers_are_quiet, carriers_show_contexts, carriers_show_nets, carriers_show_runs,
    runners_show_runs, streams_match,
};
use tile_match::laws::draws_one_plan;
use vcd_write::nets_have_their_bits;

/// If a text carries a netlist, as the text that `compile` writes does, then `simulate` prints of
/// it what `eval` prints of the netlist under the same words.
pub fn carriers_print_alike()
    ensures carriers { CarriersPrintAlike }
    ensures compiled { CompiledPrintAlike }
{
    carriers_show_runs();
    streams_match();
    texts_are_decided();
}

/// If a text carries a design in contexts, as the text that `compile --contexts` writes does, then
/// `simulate` prints of it the lines of runs of the design: one run in each context, from the
/// context's start on, on the streams that the words give it.
pub fn carriers_print_runs()
    ensures carriers { CarriersPrintRuns }
    ensures compiled { CompiledPrintRuns }
{
    carriers_show_contexts();
    streams_match();
}

/// If a text carries the nets of a netlist, then `probe` prints of it the line of the bits that the
/// net of the words' name and path has in each run of the netlist. In contexts, as of the text that
/// `compile` writes, it prints the lines of the net's bits in runs, one in each context, from the
/// context's start on.
pub fn carriers_print_nets()
    ensures one { CarriersPrintNets }
    ensures contexts { CarriersPrintNetsInContexts }
    ensures compiled { CompiledPrintNets }
{
    carriers_show_nets();
    carriers_show_contexts();
    carriers_show_runs();
    streams_match();
}

/// If a text carries the nets of a design in contexts, as the text that `compile` writes does, then
/// what `vcd` writes of it reads as a variable for each net in each context, with the net's bits in
/// runs, one in each context, from the context's start on.
pub fn carriers_dump_nets()
    ensures carriers { CarriersDumpNets }
    ensures compiled { CompiledDumpNets }
{
    nets_have_their_bits();
    carriers_show_contexts();
    streams_match();
}

/// If a text carries a netlist in contexts, as the text that `compile` writes does, then each
/// injection meets a conductor: no run on it ends with status 10.
pub fn carriers_run_quietly()
    ensures carriers { CarriersRunQuietly }
    ensures compiled { CompiledRunQuietly }
{
    carriers_are_quiet();
    streams_match();
}

/// What `simulate` prints of the pattern that `tape` writes, for as many cycles as the tape has, is
/// what `eval` prints of the netlist under the words of the tape. For any number of cycles it is
/// the lines of the netlist's runs on the streams, and on 0 after them.
pub fn tapes_print_alike()
    ensures runs { TapesPrintRuns }
    ensures alike { TapesPrintAlike }
{
    runners_show_runs();
    streams_match();
    texts_are_decided();
}

/// The table that `compile` writes has a bad name of a port exactly if the name of an input or an
/// output ends with `\`. So `lift` accepts each text that `compile` writes for one context, if its
/// box is within the limit of what is read and no such name ends so. If the text is also within the
/// limit of what is read, a run on it ends with status 0, or with 7 for lack of memory, or a read or
/// a write fails.
pub fn compiled_are_lifted()
    ensures names { CompiledNamesAreGood }
    ensures lifted { CompiledAreLifted }
{
    names_are_words();
}

/// The runs of a netlist on the same rows of input bits have the same bits at its outputs, and at its
/// nets but the clock nets.
pub fn netlist_runs_agree()
    ensures { NetlistRunsAgree }
{}

/// `lift` writes one text of a text, and `simulate` prints of the latter what `eval` prints of the
/// former under the same words.
pub fn lifted_print_alike()
    ensures alike { LiftedPrintAlike }
    ensures one_way { LiftedInOneWay }
{
    carriers_show_runs();
    streams_match();
    draws_one_plan();
}

/// Netlists that one text carries evaluate alike. So if `compile` writes a pattern of a netlist without
/// start words, and `eval` prints anything of what `lift` writes of the pattern, it prints of this what it
/// prints of the netlist.
pub fn carried_evaluate_alike()
    ensures carried { CarriedEvaluateAlike }
    ensures lifted { LiftedEvaluateAlike }
{
    carriers_show_runs();
    streams_match();
    texts_are_decided();
}

/// If a text carries a sound circuit, then the circuit has a run under streams for its inputs, and
/// in every such run the pattern shows the bits of the outputs, in order.
pub fn carriers_show_aig_runs()
    ensures { CarriersShowAigRuns }
{}

/// What `simulate` prints of a text that carries a sound circuit, as the text that `aiger` writes
/// does, is the lines of each of the circuit's runs on the streams of the words.
pub fn aigs_print_runs()
    ensures carriers { CarriersPrintAigRuns }
    ensures written { AigsPrintRuns }
{
    carriers_show_aig_runs();
    streams_match();
    read_aigs_are_sound();
}

/// If a text carries a sound circuit, as the text that `aiger` writes does, then no run on it ends
/// with status 10.
pub fn aigs_run_quietly()
    ensures carriers { AigCarriersRunQuietly }
    ensures written { AigsRunQuietly }
{
    streams_match();
    read_aigs_are_sound();
}

/// `lift` accepts each text that `aiger` writes, if its box is within the limit of what is read and
/// no name of a port is bad.
pub fn aigs_are_lifted()
    ensures { AigsAreLifted }
{
    compiled_are_drawings();
    plans_have_ports();
    flats_of_aigs_are_lowered();
    read_aigs_are_sound();
}

/// Contexts are isolated. Of a text that carries a design in contexts, as the text that
/// `compile --contexts` writes does, `simulate` prints the same lines of a context under any words
/// that give this context the same bits; words of other names are refused anyway. If the text also
/// carries the nets, `probe` prints the same line of the context, and `vcd` gives the nets in the
/// context the same bits.
pub fn contexts_print_apart()
    ensures outputs { ContextsPrintApart }
    ensures nets { NetsPrintApart }
    ensures compiled { CompiledPrintApart }
{
    nets_have_their_bits();
    carriers_show_nets();
    carriers_show_contexts();
    streams_match();
}

/// In a text that carries a design in contexts, the pattern goes on without a last generation when
/// no further bits come, and the bits that outputs and nets show in the first cycles do not depend
/// on the bits of later ones.
pub fn contexts_go_on()
    ensures onward { ContextsGoOn }
    ensures nets_onward { NetsGoOn }
    ensures each_front { ContextsShowEachFront }
    ensures nets_each_front { NetsShowEachFront }
{}

/// `simulate`, `probe`, `window` and `vcd` print one output: two runs of such a command on one text,
/// with the same words, print the same.
pub fn driven_print_one_answer()
    ensures simulate { SimulatePrintsOne }
    ensures probe { ProbePrintsOne }
    ensures window { WindowPrintsOne }
    ensures vcd { VcdPrintsOne }
{}

/// `eval` prints one output: two runs of it on one text, with the same words, print the same.
pub fn eval_prints_one_answer()
    ensures { EvalPrintsOne }
{
    texts_are_decided();
}

/// The bits that `vcd` writes of a net are those that `probe` prints of it on the same text, with
/// the same words.
pub fn dumps_are_probed()
    ensures { DumpsAreProbed }
{
    nets_have_their_bits();
}
