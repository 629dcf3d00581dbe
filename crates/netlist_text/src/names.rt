// The names of nets and ports.
ghost use Rattle.std.specs.Prelude.{◌≡◌, IfOk, All, map};
ghost use Rattle.netlist_meaning.specs.Flat.{IsNetId, name_of_net, names_of_ports};
ghost use Rattle.netlist_meaning.specs.Nets.{IsInNames};
ghost use Rattle.netlist_meaning.specs.Places.{main_outputs};
ghost use Rattle.netlist_text.specs.Parts.{AreParts};

use crate::netlist::Netlist;
use lists::List;
use netlist_core::{Flat, FlatPort, Name, NetId};
use netlist_meaning::name_of_net;
use std::alloc::{AllocError, Global};

/// Copies the names of nets, each at its place.
pub fn net_names(alloc: Global, flat: &Flat, nets: &[NetId]) -> Result<List<Name>, AllocError>
    requires { All (IsNetId flat.now) nets.now }
    ensures { IfOk result (λ names. names ≡ map (name_of_net flat.now) nets.now) }
{
    let mut names = Vec::new(alloc);
    for net in nets {
        names.push(name_of_net(alloc, flat, *net)?)?;
    }
    Ok(List::of(names))
}

// The names of ports.
fn names_of_ports(alloc: Global, flat: &Flat, ports: &[FlatPort]) -> Result<List<Name>, AllocError>
    requires { All (λ port. IsNetId flat.now port.net) ports.now }
    ensures { IfOk result (λ names. names ≡ names_of_ports flat.now ports.now) }
{
    let mut names = Vec::new(alloc);
    for port in ports {
        names.push(name_of_net(alloc, flat, port.net)?)?;
    }
    Ok(List::of(names))
}

impl Netlist {
    /// Returns the IN names: those of the main inputs without the control, in order.
    pub fn in_names(&self, alloc: Global) -> Result<List<Name>, AllocError>
        requires { AreParts self.now.design self.now.flat self.now.order.nodes }
        ensures names { IfOk result (IsInNames self.now.design) }
        ensures flat { IfOk result (λ names. names ≡
            names_of_ports self.now.flat self.now.flat.ins) }
    {
        names_of_ports(alloc, &self.flat, self.flat.ins.as_slice())
    }

    /// Returns the names of the main outputs, in order.
    pub fn out_names(&self, alloc: Global) -> Result<List<Name>, AllocError>
        requires { AreParts self.now.design self.now.flat self.now.order.nodes }
        ensures { IfOk result (λ names. names ≡ main_outputs self.now.design) }
    {
        names_of_ports(alloc, &self.flat, self.flat.outs.as_slice())
    }
}
