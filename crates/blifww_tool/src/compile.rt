// `compile`: the pattern of a netlist.
ghost use Rattle.std.specs.Prelude.{◌≡◌, ◌==◌, ◌&&◌, ◌<◌, ℕ, List, [], length, map, string_bytes, IfOk, IfErr};
ghost use Rattle.netlist_text.specs.NetlistText.{IsNetlist};
ghost use Rattle.netlist_text.specs.Parts.{AreParts};
ghost use Rattle.plan_ports.specs.Tables.{HasPortNames};
ghost use Rattle.netlist_plans.specs.Lists.{IsPlanned};
ghost use Rattle.start_words.specs.Flats.{AreBitsSet, flat_latches};
ghost use Rattle.command_words.specs.Shapes.{compile};
ghost use Rattle.blifww_tool.specs.Answer.{output_text, IsWritableOutput};
ghost use Rattle.blifww_tool.specs.Commands.{Prints, HasTextCause};
ghost use Rattle.blifww_tool.specs.Compilation.{Compiles, HasStarts, IsCarriedByTables};

use crate::output::Output;
use lane_core::{Plan, period};
use netlist_plans::{NetlistPlanError, Planned, plan_contexts, plan_flat};
use netlist_text::{Netlist, netlist_of};
use plan_ports::of_plan;
use program_runs::{Cause, TextError};
use start_words::Starts;
use std::alloc::Global;

/// Makes the plan of a netlist, for one context and without a tape. With each table of the plan, the
/// text of both carries the netlist.
pub fn plan_of(alloc: Global, netlist: &Netlist) -> Result<Plan, NetlistPlanError>
    requires parts { AreParts netlist.now.design netlist.now.flat netlist.now.order.nodes }
    requires names { HasPortNames netlist.now.flat }
    ensures carried { IfOk result (IsCarriedByTables netlist.now.design netlist.now.flat) }
    ensures planned { IfOk result (IsPlanned netlist.now.flat) }
    ensures bare { IfOk result (λ plan. plan.tape ≡ []) }
{
    let plan = plan_flat(alloc, &netlist.flat, &netlist.order)?;
    Ok(plan)
}

// Whether one context is asked for, without words.
fn is_alone(contexts: u64, words: &[String]) -> bool
    ensures { result ≡ (contexts == 1 && length words.now == 0) }
{
    contexts == 1 && words.is_empty()
}

// The plan with the starts that words have set in each of so many contexts.
fn started(
    alloc: Global,
    netlist: &Netlist,
    plan: Plan,
    contexts: u64,
    words: &[String],
    starts: &Starts,
) -> Result<Output, TextError>
    requires parts { AreParts netlist.now.design netlist.now.flat netlist.now.order.nodes }
    requires names { HasPortNames netlist.now.flat }
    requires carried { IsCarriedByTables netlist.now.design netlist.now.flat plan }
    requires planned { IsPlanned netlist.now.flat plan }
    requires some { 0 < contexts }
    requires set { AreBitsSet (flat_latches netlist.now.flat) starts.now.bits
        (map string_bytes words.now) }
    ensures printed { IfOk result (λ output. (text : List ℕ)
        → HasStarts contexts (map string_bytes words.now) text netlist.now.design
        → Compiles contexts (map string_bytes words.now) text (output_text output)) }
    ensures writable { IfOk result IsWritableOutput }
    ensures refused { IfErr result (λ e. (text : List ℕ)
        → HasStarts contexts (map string_bytes words.now) text netlist.now.design
        → HasTextCause (compile contexts (map string_bytes words.now)) text e) }
{
    let limit = period(&plan) / 32;
    if contexts > limit {
        drop(plan);
        return Err(TextError::Refused(Cause::TooManyContexts { contexts, limit }));
    }
    if is_alone(contexts, words) {
        let ports = of_plan(alloc, &netlist.flat, &plan, 1)?;
        return Ok(Output::Drawing(Planned { plan, ports }));
    }
    let bits = starts.in_contexts(alloc, &netlist.flat, contexts)?;
    let made = plan_contexts(alloc, &netlist.flat, plan, bits.as_slice());
    drop(bits);
    let started = made?;
    Ok(Output::Drawing(started))
}

// The pattern of a netlist in so many contexts. The words say with which bits its latches start.
fn compiled(
    alloc: Global,
    netlist: &Netlist,
    contexts: u64,
    words: &[String],
) -> Result<Output, TextError>
    requires some { 0 < contexts }
    requires parts { AreParts netlist.now.design netlist.now.flat netlist.now.order.nodes }
    requires names { HasPortNames netlist.now.flat }
    ensures printed { IfOk result (λ output. (text : List ℕ) → IsNetlist text netlist.now.design
        → Prints (compile contexts (map string_bytes words.now)) text (output_text output)) }
    ensures writable { IfOk result IsWritableOutput }
    ensures refused { IfErr result (λ e. (text : List ℕ) → IsNetlist text netlist.now.design
        → HasTextCause (compile contexts (map string_bytes words.now)) text e) }
{
    let starts = Starts::read(alloc, &netlist.flat, words, contexts)?;
    let plan = plan_of(alloc, netlist)?;
    let output = started(alloc, netlist, plan, contexts, words, &starts);
    drop(starts);
    output
}

/// Makes the pattern of the netlist whose text this is, in so many contexts, with the lines that
/// say where its ports and nets are. The words say with which bits its latches start.
pub fn compile(
    alloc: Global,
    contexts: u64,
    words: &[String],
    text: &[u8],
) -> Result<Output, TextError>
    requires some { 0 < contexts }
    ensures printed { IfOk result (λ output.
        Prints (compile contexts (map string_bytes words.now)) text.now (output_text output)) }
    ensures writable { IfOk result IsWritableOutput }
    ensures refused { IfErr result (λ e.
        HasTextCause (compile contexts (map string_bytes words.now)) text.now e) }
{
    let netlist = netlist_of(alloc, text)?;
    let output = compiled(alloc, &netlist, contexts, words);
    drop(netlist);
    output
}
