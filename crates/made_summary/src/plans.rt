// Made netlists and their plans.
ghost use Rattle.std.specs.Prelude.{◌≡◌, ◌<◌, ◌≤◌, ◌^◌, IfOk, IfErr};
ghost use Rattle.netlist_core.specs.declared.model.Design.{Design};
ghost use Rattle.netlist_text.specs.NetlistText.{IsNetlist};
ghost use Rattle.netlist_text.specs.Parts.{AreParts};
ghost use Rattle.made_netlists.specs.Text.{made_state};
ghost use Rattle.made_summary.specs.Plans.{IsMadeWithPlan};
ghost use Rattle.made_summary.specs.declared.error.SummaryError.TheVariants.{NoMemory};

use crate::error::SummaryError;
use netlist_plans::{Planned, plan_netlist};
use netlist_text::{Netlist, NetlistError, netlist_of};
use std::alloc::{AllocError, Global};

/// A made netlist, its plan, and the state from which more may be drawn.
#[derive(Drop)]
pub struct MadePlan {
    pub netlist: Netlist,
    pub planned: Planned,
    pub state: u32,
}

// The netlist of a text that is a netlist.
fn netlist_in(alloc: Global, text: &[u8]) -> Result<Netlist, AllocError>
    requires { (design : Design) × IsNetlist text.now design }
    ensures netlist { IfOk result (λ n. IsNetlist text.now n.design) }
    ensures parts { IfOk result (λ n. AreParts n.design n.flat n.order.nodes) }
{
    match netlist_of(alloc, text) {
        Ok(netlist) => Ok(netlist),
        Err(NetlistError::NoMemory) => Err(AllocError),
        Err(NetlistError::Fault(_)) => unreachable!(),
        Err(NetlistError::TooLarge { .. }) => unreachable!(),
        Err(NetlistError::Loop(_)) => unreachable!(),
    }
}

/// Makes the netlist of a seed and a number of gates, with its plan.
pub fn plan_made(alloc: Global, seed: u32, size: u32) -> Result<MadePlan, SummaryError>
    requires seed { seed < 2 ^ 31 }
    requires some_gate { 0 < size }
    requires few_gates { size ≤ 128 }
    ensures plan { IfOk result (λ made. IsMadeWithPlan seed size made.netlist made.planned) }
    ensures state { IfOk result (λ made. made.state ≡ made_state seed size) }
    ensures range { IfOk result (λ made. made.state < 2 ^ 31) }
    ensures refused { IfErr result (λ e. e ≡ NoMemory) }
{
    let made = made_netlists::make(alloc, seed, size)?;
    let netlist = netlist_in(alloc, made.text.as_slice())?;
    let Ok(planned) = plan_netlist(alloc, &netlist.flat, &netlist.order) else {
        drop(netlist);
        return Err(SummaryError::NoMemory);
    };
    Ok(MadePlan {
        netlist,
        planned,
        state: made.state,
    })
}
