// Nets that have two drivers.
ghost use Rattle.std.specs.Prelude.{◌≡◌, List, OnOk};
ghost use Rattle.netlist_core.specs.declared.model.Model.{Model};
ghost use Rattle.netlist_rules.specs.ModelFaults.{second_drivers};
ghost use Rattle.model_words.specs.Words.{earliest_word, earliest_after};
ghost use Rattle.net_faults.specs.NetWords.{AreDriverWords, ArePortsOf, HaveNumbers};

use crate::net_words::NetWords;
use crate::repeats::offer_repeats;
use model_words::Earliest;
use std::alloc::{AllocError, Global};

/// Offers the drivers of a model's nets that have an earlier driver.
pub fn offer_second_drivers<'a>(
    alloc: Global,
    words: &NetWords<'a>,
    earliest: &mut Earliest<'a>,
) -> Result<(), AllocError>
    requires { HaveNumbers words.now }
    ensures { OnOk result ((models : List Model) (model : Model) → ArePortsOf words.now model →
        AreDriverWords words.now models model →
        earliest_word earliest.new ≡
        earliest_after (earliest_word earliest.old) (second_drivers models model)) }
{
    let drivers = words.drivers(alloc)?;
    offer_repeats(alloc, &words.names, &drivers, earliest)
}
