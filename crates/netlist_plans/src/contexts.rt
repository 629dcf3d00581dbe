// The plan of a flat netlist in several contexts.
ghost use Rattle.std.specs.Prelude.{◌≡◌, ◌<◌, ◌^◌, ◌++◌, ℕ, List, true, [], length, map, IfOk, OnOk};
ghost use Rattle.lists.specs.Items.{alone_if};
ghost use Rattle.carries.specs.FlatContexts.{CarriesFlatContexts};
ghost use Rattle.grid_assembly.specs.PlanDrawing.{start_grid};
ghost use Rattle.lane_core.specs.Plans.{IsAdmissible};
ghost use Rattle.netlist_meaning.specs.Flat.{IsWeighed};
ghost use Rattle.pattern_writing.specs.WrittenText.{pattern_text};
ghost use Rattle.plan_layout.specs.Starts.{HasStartEdges};
ghost use Rattle.plan_ports.specs.Tables.{IsTableOf};
ghost use Rattle.netlist_plans.specs.Contexts.{loop_starting_bits, AreStartsOf, IsPaddedFor, StartsLoops};
ghost use Rattle.netlist_plans.specs.Lists.{IsCompilable, IsPlanned};
ghost use Rattle.netlist_plans.specs.NetPlaces.{HasNetPlaces};

use crate::{NetlistPlanError, Planned};
use lane_core::Plan;
use latch_loops::start_contexts;
use lists::List;
use netlist_core::Flat;
use std::alloc::{AllocError, Global};

// Puts a bit 1 at the end, if it is wanted.
fn push_one(bits: &mut Vec<bool>, wanted: bool) -> Result<(), AllocError>
    ensures { OnOk result (bits.new.items ≡ bits.old.items ++ alone_if wanted true) }
{
    if wanted {
        bits.push(true)?;
    }
    Ok(())
}

// The bits with which the loops of a plan start when the latches start with these bits.
fn loop_starting_bits(
    alloc: Global,
    plan: &Plan,
    latches: &List<bool>,
) -> Result<List<bool>, AllocError>
    ensures { IfOk result (λ bits. bits ≡ loop_starting_bits plan.now latches.now) }
{
    let mut bits = latches.as_slice().to_vec(alloc)?;
    push_one(&mut bits, latches.len() < plan.latches as usize)?;
    Ok(List::of(bits))
}

// The starting bits of the loops in all contexts.
fn all_loop_bits(
    alloc: Global,
    plan: &Plan,
    starts: &[List<bool>],
) -> Result<Vec<List<bool>>, AllocError>
    ensures { IfOk result (λ all. all.items ≡ map (loop_starting_bits plan.now) starts.now) }
{
    let mut all = Vec::new(alloc);
    for latches in starts {
        all.push(loop_starting_bits(alloc, plan, latches)?)?;
    }
    Ok(all)
}

/// Makes the plan of `plan_flat` start several contexts. `starts` has a list for each context,
/// with the bit that each latch starts with, in order. There are at most as many contexts as the
/// plan's period has macro steps of 32 generations. If the starts of all contexts have no room on
/// the ways back of the plan's loops, the plan gets columns without instructions.
pub fn plan_contexts(
    alloc: Global,
    flat: &Flat,
    plan: Plan,
    starts: &[List<bool>],
) -> Result<Planned, NetlistPlanError>
    requires compilable { (order : List ℕ) × IsCompilable flat.now order }
    requires weighed { IsWeighed flat.now }
    requires small { flat.now.weight < 2 ^ 16 }
    requires planned { IsPlanned flat.now plan }
    requires starts { AreStartsOf flat.now plan starts.now }
    ensures admissible { IfOk result (λ p. IsAdmissible p.plan) }
    ensures edges { IfOk result (λ p. HasStartEdges p.plan) }
    ensures bare { IfOk result (λ p. p.plan.tape ≡ []) }
    ensures padded { IfOk result (λ p. IsPaddedFor (length starts.now) plan p.plan) }
    ensures starts { IfOk result (λ p.
        StartsLoops p.plan (map (loop_starting_bits plan) starts.now)) }
    ensures table { IfOk result (λ p. IsTableOf flat.now p.plan (length starts.now) p.ports) }
    ensures carries { IfOk result (λ p.
        CarriesFlatContexts (pattern_text (start_grid p.plan) p.ports) flat.now starts.now
        ) }
    ensures places { IfOk result (λ p. HasNetPlaces flat.now p.plan) }
{
    let Ok(loops) = all_loop_bits(alloc, &plan, starts) else {
        drop(plan);
        return Err(NetlistPlanError::NoMemory);
    };
    let plan = start_contexts(alloc, plan, &loops)?;
    let Ok(ports) = plan_ports::of_plan(alloc, flat, &plan, starts.len() as u64) else {
        drop(plan);
        return Err(NetlistPlanError::NoMemory);
    };
    Ok(Planned { plan, ports })
}
