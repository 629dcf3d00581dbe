// The check of models.
ghost use Rattle.std.specs.Prelude.{◌≡◌, ◌≢◌, [], IfOk, OnOk};
ghost use Rattle.std.specs.Result.{IsErrOf, IsOkUnless};
ghost use Rattle.netlist_rules.specs.declared.fault.Fault as text;
ghost use Rattle.netlist_rules.specs.ModelFaults.{AreFaultless, HasModelFault};
ghost use Rattle.blif_check.specs.declared.error.CheckError.TheVariants.{Fault, NoMemory};

use crate::error::CheckError;
use crate::rules::first_fault;
use lists::List;
use netlist_core::{Design, Model};
use std::alloc::Global;

/// Checks models against the rules on models, and returns their design if they break none; its
/// first model is the main one.
///
/// `Fault` has the rule of the lowest number that the models break, and the earliest of the words
/// at which they break it. The rules on lines are not checked.
pub fn check(alloc: Global, models: List<Model>) -> Result<Design, CheckError>
    ensures design { IfOk result (λ design. design.models ≡ models) }
    ensures faultless { OnOk result (models ≢ [] × AreFaultless models) }
    ensures passes { AreFaultless models → IsOkUnless result NoMemory }
    ensures fault { (fault : text.Fault) → IsErrOf result (Fault fault) →
        HasModelFault models fault }
{
    match first_fault(alloc, models.as_slice())? {
        Some(fault) => Err(CheckError::Fault(fault)),
        None => Ok(Design { models }),
    }
}
