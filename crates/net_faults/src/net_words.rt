// The words that name a model's nets where they are driven, and the words of its outputs.
ghost use Rattle.std.specs.Prelude.{◌≡◌, ◌++◌, List, IfOk, OnOk};
ghost use Rattle.netlist_core.specs.declared.model.Model.{Model};
ghost use Rattle.netlist_rules.specs.Drivers.{drivers_of};
ghost use Rattle.model_words.specs.Placed.{KnowsPlaced};
ghost use Rattle.net_faults.specs.Numbering.{AreNumbered, numbered_ports};
ghost use Rattle.net_faults.specs.NetWords.{AreDriverWords, ArePortsOf, HaveNumbers};

use crate::drivers::other_drivers;
use crate::numbering::{NumberedWord, Numbering};
use crate::pins::{PinKind, actual_words};
use crate::repeats::firsts;
use crate::words::{input_words, port_words};
use model_words::PlacedPorts;
use netlist_core::Model;
use std::alloc::{AllocError, Global};

/// The words that name a model's nets where they are driven, and the words of its outputs, each
/// with the number of its name.
#[derive(Drop)]
pub struct NetWords<'a> {
    pub names: Numbering<'a>,
    /// The inputs, then the clocks.
    pub inputs: Vec<NumberedWord<'a>>,
    pub outputs: Vec<NumberedWord<'a>>,
    /// The drivers other than the inputs.
    pub others: Vec<NumberedWord<'a>>,
    /// The actuals of the pins of an unknown model or formal.
    pub unknown: Vec<NumberedWord<'a>>,
}

/// Adds words to others.
pub fn push_words<'a>(
    words: &mut Vec<NumberedWord<'a>>,
    more: &[NumberedWord<'a>],
) -> Result<(), AllocError>
    ensures { OnOk result (words.new.items ≡ words.old.items ++ more.now) }
{
    for word in more {
        words.push(*word)?;
    }
    Ok(())
}

impl<'a> NetWords<'a> {
    /// Collects the words of this model. `placed` has the names of the models' ports.
    pub fn of(
        alloc: Global,
        model: &'a Model,
        placed: &PlacedPorts<'_, 'a>,
    ) -> Result<NetWords<'a>, AllocError>
        ensures numbers { IfOk result (λ words. HaveNumbers words) }
        ensures ports { IfOk result (λ words. ArePortsOf words model.now) }
        ensures drivers { IfOk result (λ words. (models : List Model) →
            KnowsPlaced placed.now models model.now
            → AreDriverWords words models model.now) }
    {
        let mut names = Numbering::new(alloc);
        let inputs = names.number_found(alloc, input_words(alloc, model))?;
        let outputs = names.number_found(alloc, port_words(alloc, model.outs.as_slice()))?;
        let others = names.number_found(alloc, other_drivers(alloc, model, placed))?;
        let unknown = names.number_found(
            alloc,
            actual_words(alloc, PinKind::Unknown, model, placed),
        )?;
        Ok(NetWords {
            names,
            inputs,
            outputs,
            others,
            unknown,
        })
    }

    /// Returns the drivers of the model's nets: each input and clock by its first word, then the
    /// others.
    pub fn drivers(&self, alloc: Global) -> Result<Vec<NumberedWord<'a>>, AllocError>
        requires { HaveNumbers self.now }
        ensures words { IfOk result (λ words. (models : List Model) (model : Model) →
            ArePortsOf self.now model → AreDriverWords self.now models model →
            numbered_ports words.items ≡ drivers_of models model) }
        ensures numbers { IfOk result (λ words. AreNumbered self.now.names words.items) }
    {
        let mut words = firsts(alloc, &self.names, &self.inputs)?;
        push_words(&mut words, &self.others)?;
        Ok(words)
    }
}
