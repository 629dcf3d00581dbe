// The faults of models in their nets.
ghost use Rattle.std.specs.Prelude.{◌≡◌, List, flat_map, IfOk, OnOk};
ghost use Rattle.netlist_core.specs.declared.model.Model.{Model};
ghost use Rattle.netlist_rules.specs.ModelFaults.{earliest, duplicate_ports, second_drivers, undriven_readings};
ghost use Rattle.netlist_rules.specs.declared.fault.FaultKind.TheVariants.{DuplicatePort, MultipleDrivers, Undriven};
ghost use Rattle.model_words.specs.EarliestBroken.{earliest_broken};
ghost use Rattle.model_words.specs.Words.{earliest_word, earliest_after};
ghost use Rattle.model_words.specs.Placed.{KnowsPlaced, KnowsPorts};
ghost use Rattle.net_faults.specs.NetWords.{AreDriverWords, ArePortsOf, HaveNumbers};

use crate::duplicates::offer_duplicates;
use crate::net_words::NetWords;
use crate::second_drivers::offer_second_drivers;
use crate::undriven_nets::offer_undriven;
use model_words::{Earliest, Fault, FaultKind, PlacedPorts};
use netlist_core::Model;
use std::alloc::{AllocError, Global};

/// The first fault by each rule on how nets are named, driven and read: at the earliest word that
/// breaks the rule.
#[derive(Drop)]
pub struct NetFaults {
    /// The fault of a name that is twice a port of a model: twice in `.inputs`, twice in `.clock`,
    /// twice in `.outputs`, or among the inputs and in `.outputs`.
    pub duplicate_port: Option<Fault>,
    /// The fault of a net that has two drivers.
    pub second_driver: Option<Fault>,
    /// The fault of a net that is read and has no driver. A pin of an unknown model or formal
    /// counts as a driver here.
    pub undriven: Option<Fault>,
}

/// The earliest word so far that breaks each of the rules.
#[derive(Clone, Copy)]
pub struct EarliestWords<'a> {
    duplicate_port: Earliest<'a>,
    second_driver: Earliest<'a>,
    undriven: Earliest<'a>,
}

// Offers the words at which a model breaks the rules, given the words that name its nets.
fn offer_words<'a>(
    alloc: Global,
    model: &'a Model,
    placed: &PlacedPorts<'_, 'a>,
    words: &NetWords<'a>,
    earliest: &mut EarliestWords<'a>,
) -> Result<(), AllocError>
    requires numbers { HaveNumbers words.now }
    requires ports { ArePortsOf words.now model.now }
    ensures duplicate_port { OnOk result (
        earliest_word earliest.new.duplicate_port
        ≡ earliest_after (earliest_word earliest.old.duplicate_port) (
        duplicate_ports model.now
        )
        ) }
    ensures second_driver { OnOk result ((models : List Model) →
        AreDriverWords words.now models model.now →
        earliest_word earliest.new.second_driver ≡
        earliest_after (earliest_word earliest.old.second_driver)
        (second_drivers models model.now)) }
    ensures undriven { OnOk result ((models : List Model) →
        KnowsPlaced placed.now models model.now →
        AreDriverWords words.now models model.now →
        earliest_word earliest.new.undriven ≡
        earliest_after (earliest_word earliest.old.undriven) (undriven_readings models model.now)) }
{
    offer_duplicates(alloc, model, words, &mut earliest.duplicate_port)?;
    offer_second_drivers(alloc, words, &mut earliest.second_driver)?;
    offer_undriven(alloc, model, placed, words, &mut earliest.undriven)
}

// Offers the words at which a model breaks the rules.
fn offer_model<'a>(
    alloc: Global,
    model: &'a Model,
    placed: &PlacedPorts<'_, 'a>,
    earliest: &mut EarliestWords<'a>,
) -> Result<(), AllocError>
    ensures duplicate_port { OnOk result (
        earliest_word earliest.new.duplicate_port
        ≡ earliest_after (earliest_word earliest.old.duplicate_port) (
        duplicate_ports model.now
        )
        ) }
    ensures second_driver { OnOk result ((models : List Model) →
        KnowsPlaced placed.now models model.now →
        earliest_word earliest.new.second_driver ≡
        earliest_after (earliest_word earliest.old.second_driver)
        (second_drivers models model.now)) }
    ensures undriven { OnOk result ((models : List Model) →
        KnowsPlaced placed.now models model.now →
        earliest_word earliest.new.undriven ≡
        earliest_after (earliest_word earliest.old.undriven) (undriven_readings models model.now)) }
{
    let words = NetWords::of(alloc, model, placed)?;
    let offered = offer_words(alloc, model, placed, &words, earliest);
    drop(words);
    offered
}

// The earliest word at which models break each rule.
fn earliest_words<'a>(
    alloc: Global,
    models: &'a [Model],
    placed: &PlacedPorts<'_, 'a>,
) -> Result<EarliestWords<'a>, AllocError>
    requires { KnowsPorts placed.now models.now }
    ensures duplicate_port { IfOk result (λ words. earliest_word words.duplicate_port ≡
        earliest (flat_map duplicate_ports models.now)) }
    ensures second_driver { IfOk result (λ words. earliest_word words.second_driver ≡
        earliest (flat_map (second_drivers models.now) models.now)) }
    ensures undriven { IfOk result (λ words. earliest_word words.undriven ≡
        earliest (flat_map (undriven_readings models.now) models.now)) }
{
    let mut earliest = EarliestWords {
        duplicate_port: Earliest::new(),
        second_driver: Earliest::new(),
        undriven: Earliest::new(),
    };
    for model in models {
        offer_model(alloc, model, placed, &mut earliest)?;
    }
    Ok(earliest)
}

/// Finds the first fault of models by each rule on their nets. `placed` has the names of the
/// models' ports.
pub fn net_faults<'a>(
    alloc: Global,
    models: &'a [Model],
    placed: &PlacedPorts<'_, 'a>,
) -> Result<NetFaults, AllocError>
    requires { KnowsPorts placed.now models.now }
    ensures duplicate_port { IfOk result (λ faults. faults.duplicate_port ≡
        earliest_broken DuplicatePort models.now) }
    ensures second_driver { IfOk result (λ faults. faults.second_driver ≡
        earliest_broken MultipleDrivers models.now) }
    ensures undriven { IfOk result (λ faults. faults.undriven ≡
        earliest_broken Undriven models.now) }
{
    let earliest = earliest_words(alloc, models, placed)?;
    let duplicate_port = earliest
        .duplicate_port
        .fault(alloc, FaultKind::DuplicatePort)?;
    let second_driver = earliest
        .second_driver
        .fault(alloc, FaultKind::MultipleDrivers)?;
    let undriven = earliest.undriven.fault(alloc, FaultKind::Undriven)?;
    Ok(NetFaults {
        duplicate_port,
        second_driver,
        undriven,
    })
}
