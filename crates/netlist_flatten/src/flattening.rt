// The flat netlist.
ghost use Rattle.std.specs.Prelude.{ℕ, ◌≡◌, ◌<◌, ◌≤◌, ◌^◌, map, min, IfOk, OnOk, IsErrOf, IsOkUnless};
ghost use Rattle.netlist_meaning.specs.InOrder.{nets_in_order};
ghost use Rattle.netlist_meaning.specs.FlatOf.{class_of_net, IsFlatOf};
ghost use Rattle.netlist_meaning.specs.Weight.{weight};
ghost use Rattle.netlist_rules.specs.ModelFaults.{AreFaultless};
ghost use Rattle.netlist_core.specs.Limit.{weight_limit};
ghost use Rattle.netlist_flatten.specs.declared.error.FlattenError.TheVariants.{TooLarge, NoMemory};

use crate::classes::classes_of;
use crate::error::FlattenError;
use crate::latches::{first_control, latches_of};
use crate::nets::nets_of;
use crate::nodes::nodes_of;
use crate::numbers::Numbers;
use crate::ports::flat_ports;
use design_walks::weight;
use lists::List;
use netlist_core::{Design, Flat, WEIGHT_LIMIT};
use std::alloc::{AllocError, Global};

// The flat netlist of a numbered design of a known weight, from the class of each net.
fn flat_by_classes(
    alloc: Global,
    numbers: &Numbers<'_>,
    found: u64,
    classes: &[u32],
) -> Result<Flat, AllocError>
    requires faultless { AreFaultless numbers.now.models }
    requires weight { found ≡ weight numbers.now }
    requires classes { classes.now ≡ map (class_of_net numbers.now) (nets_in_order numbers.now) }
    ensures { IfOk result (IsFlatOf numbers.now) }
{
    let latches = latches_of(alloc, numbers)?;
    let ports = flat_ports(alloc, numbers, classes, &latches)?;
    let nets = nets_of(alloc, numbers, classes)?;
    let nodes = nodes_of(alloc, numbers)?;
    Ok(Flat {
        nets: List::of(nets),
        ins: ports.ins,
        outs: ports.outs,
        clocks: ports.clocks,
        nodes: List::of(nodes),
        control: first_control(&latches),
        latches: List::of(latches),
        weight: found,
        listed: true,
    })
}

// The flat netlist of a numbered design of a known weight.
fn flat_of(alloc: Global, numbers: &Numbers<'_>, found: u64) -> Result<Flat, AllocError>
    requires faultless { AreFaultless numbers.now.models }
    requires few { weight numbers.now < 2 ^ 32 }
    requires weight { found ≡ weight numbers.now }
    ensures { IfOk result (IsFlatOf numbers.now) }
{
    let classes = classes_of(alloc, numbers)?;
    flat_by_classes(alloc, numbers, found, &classes)
}

// The flat netlist of a design of a known weight, whose nets are numbered first.
fn numbered_flat(alloc: Global, design: &Design, found: u64) -> Result<Flat, AllocError>
    requires faultless { AreFaultless design.now.models }
    requires few { weight design.now ≤ weight_limit }
    requires weight { found ≡ weight design.now }
    ensures { IfOk result (IsFlatOf design.now) }
{
    let numbers = Numbers::new(alloc, design)?;
    let flat = flat_of(alloc, &numbers, found);
    drop(numbers);
    flat
}

/// Makes the flat netlist of a design without a fault.
///
/// `TooLarge` comes if the design weighs more than `WEIGHT_LIMIT`. It has the design's weight, or
/// the greatest u64 if the design weighs more.
pub fn flatten(alloc: Global, design: &Design) -> Result<Flat, FlattenError>
    requires faultless { AreFaultless design.now.models }
    ensures flat { IfOk result (IsFlatOf design.now) }
    ensures within { OnOk result (weight design.now ≤ weight_limit) }
    ensures flattens { weight design.now ≤ weight_limit → IsOkUnless result NoMemory }
    ensures too_large { (w : ℕ) → IsErrOf result (TooLarge w) →
        (w ≡ min (weight design.now) u64.MAX) × (weight_limit < weight design.now) }
{
    let found = weight(alloc, design)?;
    if found > WEIGHT_LIMIT {
        return Err(FlattenError::TooLarge { weight: found });
    }
    Ok(numbered_flat(alloc, design, found)?)
}
