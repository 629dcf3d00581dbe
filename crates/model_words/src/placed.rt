// The ports of models, by the names of the models.
ghost use Rattle.std.specs.Prelude.{◌≡◌, ◌⊎◌, true, List, IfOk};
ghost use Rattle.std.specs.List.{AllZip};
ghost use Rattle.std.specs.Option.{option_copied};
ghost use Rattle.netlist_core.specs.declared.model.Model.{Model};
ghost use Rattle.netlist_core.specs.Names.{model_named};
ghost use Rattle.model_words.specs.Placed.{AreNamesOfPorts, ArePlacedNames, ArePlain, KnowsPorts};

use crate::ports::PortNames;
use lists::List;
use model_index::NamedModels;
use netlist_core::Model;
use std::alloc::{AllocError, Global};

/// The models by name, with the names of the ports of each, unless no model has a subckt line.
#[derive(Drop)]
pub struct PlacedPorts<'n, 'a> {
    named: &'n NamedModels<'a>,
    ports: List<PortNames<'a>>,
}

// Whether no model has a subckt line.
fn are_plain(models: &[Model]) -> bool
    ensures { result ≡ true → ArePlain models.now }
{
    for model in models {
        if model.subckts.len() != 0 {
            return false;
        }
    }
    true
}

// The names of the ports of each model.
fn ports_of<'a>(alloc: Global, models: &'a [Model]) -> Result<Vec<PortNames<'a>>, AllocError>
    ensures { IfOk result (λ ports. AllZip AreNamesOfPorts ports.items models.now) }
{
    let mut ports = Vec::with_capacity(alloc, models.len())?;
    for model in models {
        ports.push(PortNames::of(alloc, model)?)?;
    }
    Ok(ports)
}

// The names of the ports of each model, or nothing if no model has a subckt line.
fn needed_ports<'a>(alloc: Global, models: &'a [Model]) -> Result<Vec<PortNames<'a>>, AllocError>
    ensures { IfOk result (λ ports. AllZip AreNamesOfPorts ports.items models.now ⊎
        ArePlain models.now) }
{
    if are_plain(models) {
        return Ok(Vec::new(alloc));
    }
    ports_of(alloc, models)
}

impl<'n, 'a> PlacedPorts<'n, 'a> {
    /// Collects the names of the ports of these models. `named` is the index of the models.
    pub fn new(
        alloc: Global,
        models: &'a [Model],
        named: &'n NamedModels<'a>,
    ) -> Result<PlacedPorts<'n, 'a>, AllocError>
        requires { named.now ≡ models.now }
        ensures { IfOk result (λ placed. KnowsPorts placed models.now) }
    {
        Ok(PlacedPorts {
            named,
            ports: List::of(needed_ports(alloc, models)?),
        })
    }

    /// Returns the names of the ports of the first model of this name, if there is such a model and
    /// some model has a subckt line.
    pub fn find(&self, name: &[u8]) -> Option<&PortNames<'a>>
        ensures { (models : List Model) → KnowsPorts self.now models → ¬ ArePlain models
            → ArePlacedNames (model_named models name.now) (option_copied result) }
    {
        let number = self.named.find(name)?;
        self.ports.as_slice().get(number)
    }
}
