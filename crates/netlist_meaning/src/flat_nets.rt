// The classes and names of a flat netlist's nets.
ghost use Rattle.std.specs.Prelude.{◌≡◌, IfOk};
ghost use Rattle.netlist_meaning.specs.Flat.{IsNetId, class_of, name_of_net};

use lists::{Bytes, copied};
use netlist_core::{Flat, NetId};
use std::alloc::{AllocError, Global};

/// Returns the class of a net, or 0 if there is no net of this number.
pub fn class_of(flat: &Flat, id: NetId) -> usize
    ensures { result ≡ class_of flat.now id }
{
    match flat.nets.as_slice().get(id.0 as usize) {
        None => 0,
        Some(net) => net.class as usize,
    }
}

/// Copies the name of a net at its place.
pub fn name_of_net(alloc: Global, flat: &Flat, net: NetId) -> Result<Bytes, AllocError>
    requires { IsNetId flat.now net }
    ensures { IfOk result (λ name. name ≡ name_of_net flat.now net) }
{
    copied(alloc, flat.nets.get(net.0 as usize).name.as_slice())
}
