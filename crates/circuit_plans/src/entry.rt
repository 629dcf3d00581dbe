// The sources that enter a plan's columns.
ghost use Rattle.std.specs.Prelude.{◌≡◌, ◌<◌, ◌^◌, ◌++◌, All, length, map, replicate, IfOk, OnOk};
ghost use Rattle.std.specs.List.{range_with_len};
ghost use Rattle.cell_core.specs.declared.cells.Src.TheVariants.{Latch, Zero};
ghost use Rattle.lane_core.specs.Plans.{IsAdmissible};
ghost use Rattle.circuit_plans.specs.Lifted.{sources_with_inputs, entry_sources};

use cell_core::Src;
use lane_core::Plan;
use std::alloc::{AllocError, Global};

fn dark_sources(alloc: Global, count: usize) -> Result<Vec<Src>, AllocError>
    ensures { IfOk result (λ sources. sources.items ≡ replicate count Zero) }
{
    Ok(vec![in alloc; Src::Zero; count]?)
}

// Puts inputs on these lanes, in order.
fn put_inputs(sources: &mut [Src], lanes: &[u32])
    requires few { length lanes.now < 2 ^ 32 }
    requires on_lanes { All (λ lane. lane < length sources.old) lanes.now }
    ensures { sources.new ≡ sources_with_inputs 0 lanes.now sources.old }
{
    for (i, lane) in lanes.iter().enumerate() {
        sources[*lane as usize] = Src::Input(i as u32);
    }
}

// `free` lanes, with inputs on some of them.
fn input_sources(alloc: Global, free: u32, ins: &[u32]) -> Result<Vec<Src>, AllocError>
    requires few { length ins.now < 2 ^ 32 }
    requires on_lanes { All (λ lane. lane < free) ins.now }
    ensures { IfOk result (λ sources. sources.items ≡
        sources_with_inputs 0 ins.now (replicate free Zero)) }
{
    let mut sources = dark_sources(alloc, free as usize)?;
    put_inputs(&mut sources, ins);
    Ok(sources)
}

// Adds the loops after the other lanes.
fn push_loops(sources: &mut Vec<Src>, loops: u32) -> Result<(), AllocError>
    ensures { OnOk result (sources.new.items ≡
        sources.old.items ++ map Latch (range_with_len 0 loops)) }
{
    for number in 0..loops {
        sources.push(Src::Latch(number))?;
    }
    Ok(())
}

/// Returns what enters the columns, lane by lane.
pub fn entry_sources(alloc: Global, plan: &Plan) -> Result<Vec<Src>, AllocError>
    requires admissible { IsAdmissible plan.now }
    requires few { length plan.now.ins < 2 ^ 32 }
    ensures { IfOk result (λ sources. sources.items ≡ entry_sources plan.now) }
{
    let free = plan.lanes - plan.latches;
    let mut sources = input_sources(alloc, free, plan.ins.as_slice())?;
    push_loops(&mut sources, plan.latches)?;
    Ok(sources)
}
