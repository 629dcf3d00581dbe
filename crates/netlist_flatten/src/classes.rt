// The class of each net, place by place: a net has the class of its actual, which stands at an
// earlier place, or a class of its own.
ghost use Rattle.std.specs.Prelude.{◌≡◌, ◌<◌, ◌^◌, Some, length, map, IfOk};
ghost use Rattle.netlist_core.specs.declared.model.Subckt.{Subckt};
ghost use Rattle.netlist_core.specs.declared.model.Model as models;
ghost use Rattle.netlist_meaning.specs.InOrder.{places_in_order, nets_at, nets_in_order};
ghost use Rattle.netlist_meaning.specs.FlatOf.{class_of_net};
ghost use Rattle.netlist_meaning.specs.Weight.{weight};
ghost use Rattle.netlist_rules.specs.ModelFaults.{AreFaultless};
ghost use Rattle.netlist_flatten.specs.Numbered.{place_at, nets_before};
ghost use Rattle.netlist_flatten.specs.Joins.{IsLineTo, own_numbers};

use crate::numbers::Numbers;
use netlist_core::Subckt;
use std::alloc::{AllocError, Global};

// The numbers of the nets at a place.
fn own_numbers(alloc: Global, numbers: &Numbers<'_>, at: usize) -> Result<Vec<u32>, AllocError>
    requires faultless { AreFaultless numbers.now.models }
    requires few { weight numbers.now < 2 ^ 32 }
    requires place { at < length (places_in_order numbers.now) }
    ensures { IfOk result (λ own. own.items ≡ own_numbers numbers.now at) }
{
    let mut own = Vec::new(alloc);
    let mut number = numbers.first(at);
    for _ in numbers.names(at) {
        own.push(number)?;
        number += 1;
    }
    Ok(own)
}

// Gives each net at a place that a pin of the line to it names the class of its actual.
fn join_pins(
    numbers: &Numbers<'_>,
    at: usize,
    parent: usize,
    line: &Subckt,
    settled: &[u32],
    own: &mut [u32],
)
    requires faultless { AreFaultless numbers.now.models }
    requires place { at < length (places_in_order numbers.now) }
    requires earlier { parent < at }
    requires line { IsLineTo numbers.now parent at line.now }
    requires settled { settled.now ≡ map (class_of_net numbers.now) (nets_before numbers.now at) }
    requires own { own.old ≡ own_numbers numbers.now at }
    ensures { own.new ≡ map (class_of_net numbers.now)
        (nets_at numbers.now (place_at numbers.now at)) }
{
    for pin in line.pins.as_slice() {
        let formal = numbers.position(at, pin.formal.as_slice());
        let actual = numbers.id(parent, pin.actual.as_slice());
        own[formal] = settled[actual.0 as usize];
    }
}

// The classes of the nets at a place, if those of the nets before it are known.
fn classes_at(
    alloc: Global,
    numbers: &Numbers<'_>,
    at: usize,
    settled: &[u32],
) -> Result<Vec<u32>, AllocError>
    requires faultless { AreFaultless numbers.now.models }
    requires few { weight numbers.now < 2 ^ 32 }
    requires place { at < length (places_in_order numbers.now) }
    requires settled { settled.now ≡ map (class_of_net numbers.now) (nets_before numbers.now at) }
    ensures { IfOk result (λ own.
        own.items
        ≡ map (class_of_net numbers.now) (nets_at numbers.now (place_at numbers.now at))
        ) }
{
    let mut own = own_numbers(alloc, numbers, at)?;
    match numbers.parent(at) {
        None => Ok(own),
        Some(parent) => {
            let line = numbers.model(parent.number).subckts.get(parent.line);
            join_pins(numbers, at, parent.number, line, settled, &mut own);
            Ok(own)
        }
    }
}

/// Finds the class of each net, by the net's number.
pub fn classes_of(alloc: Global, numbers: &Numbers<'_>) -> Result<Vec<u32>, AllocError>
    requires faultless { AreFaultless numbers.now.models }
    requires few { weight numbers.now < 2 ^ 32 }
    ensures { IfOk result (λ classes.
        classes.items ≡ map (class_of_net numbers.now) (nets_in_order numbers.now)
        ) }
{
    let mut classes = Vec::new(alloc);
    for at in 0..numbers.len() {
        let own = classes_at(alloc, numbers, at, &classes)?;
        classes.extend_from_slice(&own)?;
    }
    Ok(classes)
}
