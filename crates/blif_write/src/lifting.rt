// The lifted circuit of a plan, with names of ports.
ghost use Rattle.std.specs.Prelude.{◌≡◌, ◌<◌, ◌^◌, false, length, max, IfOk};
ghost use Rattle.lane_core.specs.Plans.{IsAdmissible};
ghost use Rattle.cell_core.specs.Loops.{names_one};
ghost use Rattle.cell_meaning.specs.Computes.{ComputesByPlan};
ghost use Rattle.circuit_plans.specs.Circuits.{without_nets};
ghost use Rattle.lifted_designs.specs.Names.{leading, most_leading};
ghost use Rattle.blif_write.specs.Lift.{IsLiftOf, IsLiftOfCells};

use crate::Lift;
use cell_core::CellList;
use circuit_plans::{LiftError, cells_of};
use lane_core::Plan;
use lists::{Bytes, List};
use pattern_reading::{Ports, names_of};
use std::alloc::Global;

// The number of `_` with which a name begins.
fn leading(name: &[u8]) -> usize
    ensures { result ≡ leading name.now }
{
    for (i, byte) in name.iter().enumerate() {
        if *byte != b'_' {
            return i;
        }
    }
    name.len()
}

// The greatest number of `_` with which one of the names begins, or `least` if that is more.
fn most_leading(names: &[Bytes], least: usize) -> usize
    ensures { result ≡ max least (most_leading names.now) }
{
    let mut most = least;
    for name in names {
        most = most.max(leading(name.as_slice()));
    }
    most
}

/// Lifts a list of cells. The inputs and outputs get copies of the names of these ports, in order. A
/// call needs a port for each output; an input without a port gets an empty name.
pub fn of_cells(alloc: Global, list: CellList, ports: &Ports) -> Result<Lift, LiftError>
    requires outs { length ports.now.outs ≡ length list.outs }
    ensures lift { IfOk result (IsLiftOfCells list ports.now) }
{
    let ins = List::of(names_of(alloc, ports.ins.as_slice())?);
    let outs = List::of(names_of(alloc, ports.outs.as_slice())?);
    let of_ins = most_leading(ins.as_slice(), 0);
    let leading = most_leading(outs.as_slice(), of_ins);
    Ok(Lift {
        list,
        ins,
        outs,
        leading,
    })
}

/// Lifts the cells of a plan, as `of_cells` does. The plan's nets are not looked at.
pub fn of(alloc: Global, plan: &Plan, ports: &Ports) -> Result<Lift, LiftError>
    requires admissible { IsAdmissible plan.now }
    requires outs { length ports.now.outs ≡ length plan.now.outs }
    ensures lift { IfOk result (IsLiftOf plan.now ports.now) }
    ensures computes { IfOk result (λ lift. ComputesByPlan lift.list (without_nets plan.now)) }
    ensures no_one { IfOk result (λ lift. names_one lift.list ≡ false) }
    ensures few { IfOk result (λ lift. length lift.list.cells < 2 ^ 64) }
{
    let list = cells_of(alloc, plan)?;
    let _cells = list.cells.len();
    of_cells(alloc, list, ports)
}
