// The names of a model's ports.
ghost use Rattle.std.specs.Prelude.{◌≡◌, ◌||◌, IfOk, OnOk};
ghost use Rattle.lists.specs.Names.{holds_name};
ghost use Rattle.netlist_core.specs.declared.model.Model.{Model};
ghost use Rattle.netlist_core.specs.Names.{Name, is_named};
ghost use Rattle.netlist_rules.specs.Drivers.{has_input, has_output};
ghost use Rattle.model_words.specs.Placed.{AreNamesOfPorts, has_port};

use netlist_core::{Model, Port};
use std::alloc::{AllocError, Global};
use std::collections::BTreeSet;

/// The names of a model's inputs, clocks among them, and of its outputs.
#[derive(Drop)]
pub struct PortNames<'a> {
    inputs: BTreeSet<&'a [u8]>,
    outputs: BTreeSet<&'a [u8]>,
}

// Adds the names of ports to a set.
fn push_ports<'a>(names: &mut BTreeSet<&'a [u8]>, ports: &'a [Port]) -> Result<(), AllocError>
    ensures { OnOk result (
        (name : Name)
        → holds_name names.new name ≡ (holds_name names.old name || is_named ports.now name)
        ) }
{
    for port in ports {
        names.insert(port.name.as_slice())?;
    }
    Ok(())
}

impl<'a> PortNames<'a> {
    /// Collects the names of this model's ports.
    pub fn of(alloc: Global, model: &'a Model) -> Result<PortNames<'a>, AllocError>
        ensures { IfOk result (λ names. AreNamesOfPorts names model.now) }
    {
        let mut inputs = BTreeSet::new(alloc);
        push_ports(&mut inputs, model.ins.as_slice())?;
        push_ports(&mut inputs, model.clocks.as_slice())?;
        let mut outputs = BTreeSet::new(alloc);
        push_ports(&mut outputs, model.outs.as_slice())?;
        Ok(PortNames { inputs, outputs })
    }

    /// Returns whether an input or a clock has this name.
    pub fn has_input(&self, name: &[u8]) -> bool
        ensures { (model : Model) → AreNamesOfPorts self.now model →
            result ≡ has_input name.now model }
    {
        self.inputs.contains(name)
    }

    /// Returns whether an output has this name.
    pub fn has_output(&self, name: &[u8]) -> bool
        ensures { (model : Model) → AreNamesOfPorts self.now model →
            result ≡ has_output name.now model }
    {
        self.outputs.contains(name)
    }

    /// Returns whether a port has this name.
    pub fn has_port(&self, name: &[u8]) -> bool
        ensures { (model : Model) → AreNamesOfPorts self.now model →
            result ≡ has_port name.now model }
    {
        self.has_input(name) || self.has_output(name)
    }
}
