// The summary of a made netlist.
ghost use Rattle.std.specs.Prelude.{◌≡◌, ◌<◌, ◌≤◌, ◌^◌, All, length, IfOk, IfErr, OnOk};
ghost use Rattle.ww_rule.specs.Grid.{plane_of};
ghost use Rattle.grid_assembly.specs.PlanDrawing.{start_grid};
ghost use Rattle.netlist_meaning.specs.Places.{main_outputs};
ghost use Rattle.netlist_text.specs.Parts.{AreParts};
ghost use Rattle.drive.specs.Driving.{greatest_generation, last_generation, shown_bits};
ghost use Rattle.made_summary.specs.Outputs.{AreOutputsIn, CanBeDriven, HasTooFarCause, IsToldOf};
ghost use Rattle.made_summary.specs.Summaries.{HasSummaryCause, Summarizes, outputs_by_name};
ghost use Rattle.made_summary.specs.declared.error.SummaryError.TheVariants.{NoMemory};

use crate::drawing::draw_streams;
use crate::error::SummaryError;
use crate::plans::{MadePlan, plan_made};
use drive::{SimulateError, Streams};
use grid_assembly::pattern_of;
use lists::List;
use netlist_core::Name;
use netlist_plans::Planned;
use netlist_text::Netlist;
use std::alloc::{AllocError, Global};

/// An output's bits, cycle after cycle: those that the pattern shows at the output's cell, and
/// those that the netlist gives.
#[derive(Drop)]
pub struct OutputBits {
    pub name: Name,
    pub simulated: List<bool>,
    pub evaluated: List<bool>,
}

/// The summary of a netlist: its weight, the lanes and columns of its plan, the period `p` and the
/// latency `l` of its pattern in generations, and the bits of its outputs.
#[derive(Drop)]
pub struct Summary {
    pub weight: u64,
    pub lanes: u64,
    pub columns: u64,
    pub p: u64,
    pub l: u64,
    pub outputs: List<OutputBits>,
}

// An output, with copies of its name and its bits.
fn output_of(
    alloc: Global,
    name: &[u8],
    simulated: &[bool],
    evaluated: &[bool],
) -> Result<OutputBits, AllocError>
    ensures name { IfOk result (λ output. output.name ≡ name.now) }
    ensures simulated { IfOk result (λ output. output.simulated ≡ simulated.now) }
    ensures evaluated { IfOk result (λ output. output.evaluated ≡ evaluated.now) }
{
    let name = List::of(name.to_vec(alloc)?);
    let simulated = List::of(simulated.to_vec(alloc)?);
    let evaluated = List::of(evaluated.to_vec(alloc)?);
    Ok(OutputBits {
        name,
        simulated,
        evaluated,
    })
}

// The outputs of these names, with their bits.
fn outputs_by_name(
    alloc: Global,
    names: &[Name],
    simulated: &[List<bool>],
    evaluated: &[List<bool>],
) -> Result<List<OutputBits>, AllocError>
    requires simulated { length simulated.now ≡ length names.now }
    requires evaluated { length evaluated.now ≡ length names.now }
    ensures { IfOk result (λ outputs. outputs ≡
        outputs_by_name names.now simulated.now evaluated.now) }
{
    let mut outputs = Vec::with_capacity(alloc, names.len())?;
    for k in 0..names.len() {
        let name = names[k].as_slice();
        let shown = simulated[k].as_slice();
        let given = evaluated[k].as_slice();
        outputs.push(output_of(alloc, name, shown, given)?)?;
    }
    Ok(List::of(outputs))
}

// The summary of a plan, with the weight of its netlist and its outputs.
fn told(weight: u64, planned: &Planned, outputs: List<OutputBits>) -> Summary
    ensures weight { result.weight ≡ weight }
    ensures lanes { result.lanes ≡ planned.now.plan.lanes }
    ensures columns { result.columns ≡ length planned.now.plan.columns }
    ensures period { result.p ≡ planned.now.ports.p }
    ensures latency { result.l ≡ planned.now.ports.l }
    ensures outputs { result.outputs ≡ outputs }
{
    Summary {
        weight,
        lanes: u64::from(planned.plan.lanes),
        columns: planned.plan.columns.len() as u64,
        p: planned.ports.p,
        l: planned.ports.l,
        outputs,
    }
}

// The bits that the plan's pattern shows at its outputs.
fn shown_by(
    alloc: Global,
    planned: &Planned,
    streams: &Streams,
) -> Result<List<List<bool>>, SummaryError>
    requires { CanBeDriven planned.now streams.now }
    ensures near { OnOk result (last_generation planned.now.ports streams.now ≤
        greatest_generation) }
    ensures bits { IfOk result (λ bits.
        bits
        ≡ shown_bits planned.now.ports streams.now (plane_of (start_grid planned.now.plan).rows)
        ) }
    ensures refused { IfErr result (HasTooFarCause (last_generation planned.now.ports
        streams.now)) }
{
    let Ok(pattern) = pattern_of(alloc, &planned.plan) else {
        return Err(SummaryError::NoMemory);
    };
    match drive::simulate(alloc, pattern, &planned.ports, streams) {
        Ok(bits) => Ok(bits),
        Err(SimulateError::NoMemory) => Err(SummaryError::NoMemory),
        Err(SimulateError::TooFar { generations }) => Err(SummaryError::TooFar { generations }),
        Err(SimulateError::NotQuiet { .. }) => unreachable!(),
    }
}

// The netlist's outputs, with the bits that its pattern shows and those that the netlist gives.
fn outputs_in(
    alloc: Global,
    netlist: Netlist,
    streams: &Streams,
    simulated: &[List<bool>],
) -> Result<List<OutputBits>, SummaryError>
    requires parts { AreParts netlist.design netlist.flat netlist.order.nodes }
    requires many { length streams.now.bits ≡ length netlist.flat.ins }
    requires long { All (λ bits. length bits ≡ streams.now.cycles) streams.now.bits }
    requires simulated { length simulated.now ≡ length (main_outputs netlist.design) }
    ensures outputs { IfOk result (AreOutputsIn netlist.design streams.now simulated.now) }
    ensures refused { IfErr result (λ e. e ≡ NoMemory) }
{
    let Ok(names) = netlist.out_names(alloc) else {
        drop(netlist);
        return Err(SummaryError::NoMemory);
    };
    let evaluated = netlist_run::run(alloc, netlist, streams)?;
    let outputs = outputs_by_name(alloc, names.as_slice(), simulated, evaluated.as_slice())?;
    Ok(outputs)
}

// The summary of a netlist and its plan under streams.
fn told_by(
    alloc: Global,
    netlist: Netlist,
    planned: &Planned,
    streams: &Streams,
) -> Result<Summary, SummaryError>
    requires driven { CanBeDriven planned.now streams.now }
    requires parts { AreParts netlist.design netlist.flat netlist.order.nodes }
    requires many { length streams.now.bits ≡ length netlist.flat.ins }
    requires long { All (λ bits. length bits ≡ streams.now.cycles) streams.now.bits }
    requires outputs { length (
        shown_bits planned.now.ports streams.now (plane_of (start_grid planned.now.plan).rows)
        )
        ≡ length (main_outputs netlist.design) }
    ensures told { IfOk result (IsToldOf netlist planned.now streams.now) }
    ensures refused { IfErr result (HasTooFarCause (last_generation planned.now.ports
        streams.now)) }
{
    let weight = netlist.flat.weight;
    match shown_by(alloc, planned, streams) {
        Ok(simulated) => {
            let outputs = outputs_in(alloc, netlist, streams, simulated.as_slice())?;
            Ok(told(weight, planned, outputs))
        }
        Err(error) => {
            drop(netlist);
            Err(error)
        }
    }
}

/// Makes, compiles, simulates and evaluates the netlist of a seed and a number of gates, under
/// `cycles` cycles of bits that are drawn after the netlist. `TooFar` comes after the netlist is
/// compiled, if the pattern would show the last bits after generation 4,294,967,296.
pub fn summarize(
    alloc: Global,
    seed: u32,
    size: u32,
    cycles: usize,
) -> Result<Summary, SummaryError>
    requires seed { seed < 2 ^ 31 }
    requires some_gate { 0 < size }
    requires few_gates { size ≤ 128 }
    requires some_cycle { 0 < cycles }
    ensures summary { IfOk result (Summarizes seed size cycles) }
    ensures refused { IfErr result (HasSummaryCause seed size cycles) }
{
    let MadePlan {
        netlist,
        planned,
        state,
    } = plan_made(alloc, seed, size)?;
    let Ok(streams) = draw_streams(alloc, state, cycles) else {
        drop(netlist);
        drop(planned);
        return Err(SummaryError::NoMemory);
    };
    let summary = told_by(alloc, netlist, &planned, &streams);
    drop(planned);
    summary
}
