// The rules on models, in the order of their numbers.
ghost use Rattle.std.specs.Prelude.{◌≡◌, IfOk, MatchOption};
ghost use Rattle.netlist_rules.specs.ModelFaults.{AreFaultless, HasModelFault, first_broken_by, model_rules, no_model};

use lists::List;
use model_circles::circle_fault;
use model_index::NamedModels;
use model_words::PlacedPorts;
use net_faults::{NetFaults, net_faults};
use netlist_core::Model;
use netlist_rules::{Fault, FaultKind};
use pin_faults::{missing_model, pin_missing, pin_twice, unknown_formal};
use std::alloc::{AllocError, Global};

// The fault if there is no model.
fn no_model(alloc: Global, models: &[Model]) -> Result<Option<Fault>, AllocError>
    ensures { IfOk result (λ found. found ≡ no_model models.now) }
{
    if !models.is_empty() {
        return Ok(None);
    }
    Ok(Some(Fault {
        kind: FaultKind::NoModel,
        line: 1,
        word: List::of(b"-".to_vec(alloc)?),
    }))
}

// The fault by the first rule that the models break, other than the rule on circles.
fn broken_rule<'a>(
    alloc: Global,
    models: &'a [Model],
    named: &NamedModels<'a>,
) -> Result<Option<Fault>, AllocError>
    requires { named.now ≡ models.now }
    ensures { IfOk result (λ found. found ≡ first_broken_by model_rules models.now) }
{
    let placed = PlacedPorts::new(alloc, models, named)?;
    let NetFaults {
        duplicate_port,
        second_driver,
        undriven,
    } = net_faults(alloc, models, &placed)?;
    if let Some(fault) = duplicate_port {
        return Ok(Some(fault));
    }
    if let Some(fault) = second_driver {
        return Ok(Some(fault));
    }
    if let Some(fault) = undriven {
        return Ok(Some(fault));
    }
    if let Some(fault) = missing_model(alloc, models, named)? {
        return Ok(Some(fault));
    }
    if let Some(fault) = unknown_formal(alloc, models, &placed)? {
        return Ok(Some(fault));
    }
    if let Some(fault) = pin_twice(alloc, models)? {
        return Ok(Some(fault));
    }
    pin_missing(alloc, models, named)
}

/// Returns the fault of models by the rules on models, if they have one.
pub fn first_fault(alloc: Global, models: &[Model]) -> Result<Option<Fault>, AllocError>
    ensures { IfOk result (λ found.
        MatchOption found (AreFaultless models.now) (HasModelFault models.now)
        ) }
{
    if let Some(fault) = no_model(alloc, models)? {
        return Ok(Some(fault));
    }
    let named = NamedModels::new(alloc, models)?;
    if let Some(fault) = broken_rule(alloc, models, &named)? {
        return Ok(Some(fault));
    }
    circle_fault(alloc, models, &named)
}
