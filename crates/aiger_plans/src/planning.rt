// The plan of a circuit, by its flat netlist.
ghost use Rattle.std.specs.Prelude.{ℕ, List, ◌≤◌, IfOk, IfErr, OnOk};
ghost use Rattle.netlist_core.specs.Limit.{weight_limit};
ghost use Rattle.aiger_text.specs.SoundAig.{IsSoundAig};
ghost use Rattle.aiger_meaning.specs.Causes.{HasLowerCause};
ghost use Rattle.aiger_meaning.specs.Circuit.{aig_weight};
ghost use Rattle.aiger_meaning.specs.Loop.{IsAigLoop};
ghost use Rattle.aiger_plans.specs.Planned.{IsPlanOfAig};

use aiger_meaning::LowerError;
use aiger_text::Aig;
use netlist_plans::{NetlistPlanError, Planned, plan_netlist};
use std::alloc::Global;

/// Makes a plan of a sound circuit, with its port table; each circuit that a text reads as is
/// sound. There is no plan if the circuit has no flat netlist (`aiger_meaning::lower`), or if
/// memory runs out.
pub fn plan_circuit(alloc: Global, aig: &Aig) -> Result<Planned, LowerError>
    requires { IsSoundAig aig.now }
    ensures plan { IfOk result (λ p. IsPlanOfAig aig.now p.plan p.ports) }
    ensures light { OnOk result (aig_weight aig.now ≤ weight_limit) }
    ensures no_loop { OnOk result ((lits : List ℕ) → ¬ IsAigLoop aig.now lits) }
    ensures refused { IfErr result (HasLowerCause aig.now) }
{
    let lowered = aiger_meaning::lower(alloc, aig)?;
    match plan_netlist(alloc, &lowered.flat, &lowered.order) {
        Ok(planned) => Ok(planned),
        Err(NetlistPlanError::NoMemory) => Err(LowerError::NoMemory),
    }
}
