// Models by name.
ghost use Rattle.std.specs.Prelude.{◌≡◌, List, None, IfOk, MatchOption, position};
ghost use Rattle.std.specs.Option.{option_copied};
ghost use Rattle.netlist_core.specs.Names.{is_model_named, model_named};
ghost use Rattle.model_index.specs.ByName.{HasNumbersFrom, IsNumberOf};

use netlist_core::Model;
use std::alloc::{AllocError, Global};
use std::collections::BTreeMap;

/// Models, with an index of the first model of each name. Contracts see the models.
#[derive(Drop)]
pub struct NamedModels<'a> {
    models: &'a [Model],
    numbers: BTreeMap<&'a [u8], usize>,
}

impl<'a> std::marker::Model for NamedModels<'a> {
    ghost use Rattle.model_index.specs.ByName.{HasNumbersFrom};
    ghost use Rattle.std.specs.Prelude.{List};
    ghost use Rattle.netlist_core.specs.declared.model.Model.{Model};

    ghost Value = { List Model };

    ghost view = { λ named. named.models.now };

    ghost invariant = { λ named. HasNumbersFrom named.numbers 0 named.models.now };
}

// The number of the first model of each name.
fn numbers_of(alloc: Global, models: &[Model]) -> Result<BTreeMap<&[u8], usize>, AllocError>
    ensures { IfOk result (λ numbers. HasNumbersFrom numbers 0 models.now) }
{
    let mut numbers = BTreeMap::new(alloc);
    for number in (0..models.len()).rev() {
        numbers.insert(models[number].name.as_slice(), number)?;
    }
    Ok(numbers)
}

impl<'a> NamedModels<'a> {
    /// Makes the index of these models.
    pub fn new(alloc: Global, models: &'a [Model]) -> Result<NamedModels<'a>, AllocError>
        ensures { IfOk result (λ named. named ≡ models.now) }
    {
        Ok(NamedModels {
            models,
            numbers: numbers_of(alloc, models)?,
        })
    }

    /// Returns the number of the first model of this name, counted from 0, if there is one.
    pub fn find(&self, name: &[u8]) -> Option<usize>
        ensures number { result ≡ position (is_model_named name.now) self.now }
        ensures found { MatchOption result (model_named self.now name.now ≡ None)
            (IsNumberOf self.now name.now) }
    {
        self.numbers.get(name).copied()
    }

    /// Returns the first model of this name, if there is one.
    pub fn model(&self, name: &[u8]) -> Option<&'a Model>
        ensures { option_copied result ≡ model_named self.now name.now }
    {
        let number = self.find(name)?;
        self.models.get(number)
    }
}
