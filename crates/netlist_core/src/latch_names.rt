//! The latch that a name of the main model names.

ghost use Rattle.std.specs.Prelude.{◌≡◌, ◌<◌, ◌^◌, length, position};
ghost use Rattle.netlist_core.specs.LatchNames.{class_named, drives_class, is_main_net, latch_named};

use crate::flat::{Flat, FlatLatch, Net};

// Whether this is the net of that name in the main model.
fn is_main_net(net: &Net, name: &[u8]) -> bool
    ensures { result ≡ is_main_net name.now net.now }
{
    net.place.len() == 0 && net.name.as_slice() == name
}

// The class of the net of that name in the main model.
fn class_named(nets: &[Net], name: &[u8]) -> Option<u32>
    ensures { result ≡ class_named nets.now name.now }
{
    let net = nets.iter().find(|net| is_main_net(net, name))?;
    Some(net.class)
}

// Whether the latch's output is of this class.
fn drives_class(nets: &[Net], class: u32, latch: &FlatLatch) -> bool
    ensures { result ≡ drives_class nets.now class latch.now }
{
    match nets.get(latch.output.0 as usize) {
        Some(net) => net.class == class,
        None => false,
    }
}

// The position of the first latch whose output is of this class.
fn driver_of(nets: &[Net], latches: &[FlatLatch], class: u32) -> Option<usize>
    ensures { result ≡ position (drives_class nets.now class) latches.now }
{
    latches
        .iter()
        .position(|latch| drives_class(nets, class, latch))
}

/// Returns the position of the first latch whose output is joined with the main model's net of this
/// name. `None` comes if the main model has no such net, or if no latch's output is joined with it.
pub fn latch_named(flat: &Flat, name: &[u8]) -> Option<u32>
    requires { length flat.now.latches < 2 ^ 32 }
    ensures { result ≡ latch_named flat.now name.now }
{
    let nets = flat.nets.as_slice();
    let class = class_named(nets, name)?;
    let position = driver_of(nets, flat.latches.as_slice(), class)?;
    Some(position as u32)
}
