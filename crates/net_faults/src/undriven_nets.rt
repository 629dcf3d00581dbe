// Nets that are read and have no driver.
ghost use Rattle.std.specs.Prelude.{◌≡◌, ◌++◌, List, filter_map, IfOk, OnOk};
ghost use Rattle.netlist_core.specs.declared.model.Model.{Model};
ghost use Rattle.netlist_core.specs.declared.model.Port.{Port};
ghost use Rattle.netlist_rules.specs.Drivers.{actuals, drivers_of, is_unknown_pin};
ghost use Rattle.netlist_rules.specs.ModelFaults.{unless_named, undriven_readings};
ghost use Rattle.model_words.specs.Words.{word_ports, earliest_word, earliest_after};
ghost use Rattle.model_words.specs.Placed.{KnowsPlaced};
ghost use Rattle.net_faults.specs.FirstLines.{AreFirstLines};
ghost use Rattle.net_faults.specs.NetWords.{AreDriverWords, ArePortsOf, HaveNumbers};

use crate::first_lines::FirstLines;
use crate::net_words::{NetWords, push_words};
use crate::numbering::Numbering;
use crate::readings::reading_words;
use model_words::{Earliest, PlacedPorts, Word};
use netlist_core::Model;
use std::alloc::{AllocError, Global};

// Offers the words whose names are not among the drivers' names.
fn offer_unnamed<'a>(
    words: &[Word<'a>],
    names: &Numbering<'_>,
    drivers: &FirstLines,
    earliest: &mut Earliest<'a>,
)
    ensures { (ports : List Port) → AreFirstLines names.now drivers.now ports →
        earliest_word earliest.new ≡
        earliest_after (earliest_word earliest.old)
        (filter_map (unless_named ports) (word_ports words.now)) }
{
    for word in words {
        if !drivers.has_name(names, word.name) {
            earliest.offer(*word);
        }
    }
}

// The lines of the drivers of a model's nets; the actuals of unknown pins count as drivers here.
fn driver_lines(alloc: Global, words: &NetWords<'_>) -> Result<FirstLines, AllocError>
    requires numbers { HaveNumbers words.now }
    ensures { IfOk result (λ lines. (models : List Model) (model : Model) →
        ArePortsOf words.now model → AreDriverWords words.now models model →
        AreFirstLines words.now.names lines
        (drivers_of models model ++ actuals models is_unknown_pin model)) }
{
    let mut drivers = words.drivers(alloc)?;
    push_words(&mut drivers, &words.unknown)?;
    let lines = FirstLines::of(alloc, &words.names, &drivers);
    drop(drivers);
    lines
}

/// Offers the readings of a model's nets that have no driver. A pin of an unknown model or formal
/// counts as a driver here.
pub fn offer_undriven<'a>(
    alloc: Global,
    model: &'a Model,
    placed: &PlacedPorts<'_, 'a>,
    words: &NetWords<'a>,
    earliest: &mut Earliest<'a>,
) -> Result<(), AllocError>
    requires numbers { HaveNumbers words.now }
    requires ports { ArePortsOf words.now model.now }
    ensures { OnOk result ((models : List Model) → KnowsPlaced placed.now models model.now →
        AreDriverWords words.now models model.now →
        earliest_word earliest.new ≡
        earliest_after (earliest_word earliest.old) (undriven_readings models model.now)) }
{
    let drivers = driver_lines(alloc, words)?;
    let readings = reading_words(alloc, model, placed)?;
    offer_unnamed(&readings, &words.names, &drivers, earliest);
    drop(readings);
    drop(drivers);
    Ok(())
}
