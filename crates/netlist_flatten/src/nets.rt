// The nets, place by place.
ghost use Rattle.std.specs.Prelude.{◌≡◌, ◌<◌, ◌++◌, length, map, IfOk, OnOk};
ghost use Rattle.netlist_meaning.specs.InOrder.{places_in_order, nets_at, nets_in_order};
ghost use Rattle.netlist_meaning.specs.FlatOf.{class_of_net, flat_net};
ghost use Rattle.netlist_flatten.specs.Numbered.{place_at};

use crate::copies::copied_place;
use crate::numbers::Numbers;
use lists::copied;
use netlist_core::Net;
use std::alloc::{AllocError, Global};

// A net of a place, with its class.
fn net_of(alloc: Global, place: &[u32], name: &[u8], class: u32) -> Result<Net, AllocError>
    ensures { IfOk result (λ net. net ≡ record {
      place = place.now;
      name = name.now;
      class =
          class;
    }) }
{
    Ok(Net {
        place: copied_place(alloc, place)?,
        name: copied(alloc, name)?,
        class,
    })
}

// Adds the nets of a place.
fn push_nets(
    nets: &mut Vec<Net>,
    alloc: Global,
    numbers: &Numbers<'_>,
    at: usize,
    classes: &[u32],
) -> Result<(), AllocError>
    requires place { at < length (places_in_order numbers.now) }
    requires classes { classes.now ≡ map (class_of_net numbers.now) (nets_in_order numbers.now) }
    ensures { OnOk result (
        nets.new.items
        ≡ nets.old.items
        ++ map (flat_net numbers.now) (nets_at numbers.now (place_at numbers.now at))
        ) }
{
    let mut number = numbers.first(at) as usize;
    for name in numbers.names(at) {
        nets.push(net_of(alloc, numbers.place(at), name, classes[number])?)?;
        number += 1;
    }
    Ok(())
}

/// Makes the flat nets, in order, from the class of each net.
pub fn nets_of(
    alloc: Global,
    numbers: &Numbers<'_>,
    classes: &[u32],
) -> Result<Vec<Net>, AllocError>
    requires { classes.now ≡ map (class_of_net numbers.now) (nets_in_order numbers.now) }
    ensures { IfOk result (λ nets. nets.items ≡
        map (flat_net numbers.now) (nets_in_order numbers.now)) }
{
    let mut nets = Vec::with_capacity(alloc, classes.len())?;
    for at in 0..numbers.len() {
        push_nets(&mut nets, alloc, numbers, at, classes)?;
    }
    Ok(nets)
}
