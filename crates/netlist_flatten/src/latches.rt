// The latches, place by place.
ghost use Rattle.std.specs.Prelude.{◌≡◌, ◌<◌, ◌++◌, All, length, map, IfOk, OnOk};
ghost use Rattle.netlist_meaning.specs.Places.{model_at};
ghost use Rattle.netlist_meaning.specs.Nets.{net_at, IsNet};
ghost use Rattle.netlist_meaning.specs.InOrder.{places_in_order, of_some};
ghost use Rattle.netlist_meaning.specs.FlatOf.{flat_latch, at_places, first_control};
ghost use Rattle.netlist_flatten.specs.Numbered.{place_at};
ghost use Rattle.netlist_flatten.specs.Listed.{latch_names};

use crate::numbers::Numbers;
use netlist_core::{FlatLatch, LatchRow, NetId};
use std::alloc::{AllocError, Global};

// A latch at a place.
fn latch_of(numbers: &Numbers<'_>, at: usize, latch: &LatchRow) -> FlatLatch
    requires place { at < length (places_in_order numbers.now) }
    requires nets { All (λ name.
        IsNet numbers.now (net_at (place_at numbers.now at) name)
        ) (latch_names latch.now) }
    ensures { result ≡ flat_latch numbers.now (place_at numbers.now at) latch.now }
{
    let control = match &latch.control {
        None => None,
        Some(name) => Some(numbers.id(at, name.as_slice())),
    };
    FlatLatch {
        line: latch.line,
        input: numbers.id(at, latch.input.as_slice()),
        output: numbers.id(at, latch.output.as_slice()),
        kind: latch.kind,
        control,
        init: latch.init,
    }
}

// Adds the latches of a place.
fn push_latches(
    latches: &mut Vec<FlatLatch>,
    numbers: &Numbers<'_>,
    at: usize,
) -> Result<(), AllocError>
    requires { at < length (places_in_order numbers.now) }
    ensures { OnOk result (
        latches.new.items
        ≡ latches.old.items
        ++ map (flat_latch numbers.now (place_at numbers.now at)) (
        of_some (λ model. model.latches) (
        model_at numbers.now (place_at numbers.now at)
        )
        )
        ) }
{
    for latch in numbers.model(at).latches.as_slice() {
        latches.push(latch_of(numbers, at, latch))?;
    }
    Ok(())
}

/// Makes the flat latches of all places, in order.
pub fn latches_of(alloc: Global, numbers: &Numbers<'_>) -> Result<Vec<FlatLatch>, AllocError>
    ensures { IfOk result (λ latches.
        latches.items ≡ at_places numbers.now (λ model. model.latches) (flat_latch numbers.now)
        ) }
{
    let mut latches = Vec::new(alloc);
    for at in 0..numbers.len() {
        push_latches(&mut latches, numbers, at)?;
    }
    Ok(latches)
}

/// Returns the control of the first latch, if there is one.
pub fn first_control(latches: &[FlatLatch]) -> Option<NetId>
    ensures { result ≡ first_control latches.now }
{
    match latches.first() {
        None => None,
        Some(latch) => latch.control,
    }
}
