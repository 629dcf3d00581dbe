// The plan of a flat netlist with the bits of its inputs on its tape.
ghost use Rattle.std.specs.Prelude.{◌≡◌, ◌≤◌, ℕ, List, length, All, IfOk};
ghost use Rattle.carries.specs.ByItself.{RunsByItselfFlat};
ghost use Rattle.grid_assembly.specs.PlanDrawing.{start_grid};
ghost use Rattle.lane_core.specs.Plans.{IsAdmissible};
ghost use Rattle.pattern_writing.specs.WrittenText.{pattern_text};
ghost use Rattle.plan_layout.specs.Starts.{HasStartEdges};
ghost use Rattle.plan_ports.specs.Tables.{IsTableOf};
ghost use Rattle.streams.specs.Rows.{rows_of};
ghost use Rattle.netlist_plans.specs.Lists.{IsCompilable, IsPlanned};
ghost use Rattle.netlist_plans.specs.Loaded.{IsLoadedWith};
ghost use Rattle.netlist_plans.specs.Planned.{IsSmall};

use crate::{NetlistPlanError, Planned};
use lane_core::Plan;
use netlist_core::Flat;
use std::alloc::Global;
use streams::Streams;

/// Puts streams of the inputs on the tape of the plan that `plan_flat` makes, and returns that
/// plan with its table, which names no input. The text of both runs by itself: nothing drives it,
/// and it shows the run whose input bits are those of the streams, and 0 from then on. The streams
/// are those of one context, of 1 to 4,096 cycles.
pub fn load_netlist(
    alloc: Global,
    flat: &Flat,
    plan: Plan,
    streams: &Streams,
) -> Result<Planned, NetlistPlanError>
    requires compilable { (order : List ℕ) × IsCompilable flat.now order }
    requires planned { IsPlanned flat.now plan }
    requires many { length streams.now.bits ≡ length flat.now.ins }
    requires long { All (λ bits. length bits ≡ streams.now.cycles) streams.now.bits }
    requires some { 1 ≤ streams.now.cycles }
    requires few { streams.now.cycles ≤ 4096 }
    ensures admissible { IfOk result (λ p. IsAdmissible p.plan) }
    ensures edges { IfOk result (λ p. HasStartEdges p.plan) }
    ensures loaded { IfOk result (λ p. IsLoadedWith streams.now plan p.plan) }
    ensures table { IfOk result (λ p. IsTableOf flat.now p.plan 1 p.ports) }
    ensures small { IsSmall flat.now plan → IfOk result (λ p. IsSmall flat.now p.plan) }
    ensures runs { IfOk result (λ p. RunsByItselfFlat
        (pattern_text (start_grid p.plan) p.ports) flat.now (rows_of streams.now)) }
{
    let plan = plan_waves::load(alloc, plan, streams.bits.as_slice())?;
    let Ok(ports) = plan_ports::of_plan(alloc, flat, &plan, 1) else {
        drop(plan);
        return Err(NetlistPlanError::NoMemory);
    };
    Ok(Planned { plan, ports })
}
