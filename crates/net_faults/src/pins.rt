// The pins of subckt lines, by what their formals are.
ghost use Rattle.std.specs.Prelude.{◌≡◌, ◌++◌, List, Option, filter_map, IfOk, OnOk};
ghost use Rattle.std.specs.Option.{option_copied};
ghost use Rattle.netlist_core.specs.declared.model.Model.{Model};
ghost use Rattle.netlist_rules.specs.Drivers.{is_input_pin, is_output_pin, actual_if, actuals};
ghost use Rattle.model_words.specs.Words.{word_ports};
ghost use Rattle.model_words.specs.Placed.{ArePlacedNames, KnowsPlaced};
ghost use Rattle.net_faults.specs.Pins.{is_pin_of};

use model_words::{PlacedPorts, PortNames, Word};
use netlist_core::{Model, Pin, Subckt};
use std::alloc::{AllocError, Global};

/// What a pin's formal is in the model that its line names, if there is one.
#[derive(Clone, Copy)]
pub enum PinKind {
    Input,
    Output,
    /// Neither an input nor an output, or there is no such model.
    Unknown,
}

fn is_input(placed: Option<&PortNames<'_>>, pin: &Pin) -> bool
    ensures { (model : Option Model) → ArePlacedNames model (option_copied placed.entry)
        → result ≡ is_input_pin model pin.now }
{
    match placed {
        None => false,
        Some(names) => names.has_input(pin.formal.as_slice()),
    }
}

fn is_output(placed: Option<&PortNames<'_>>, pin: &Pin) -> bool
    ensures { (model : Option Model) → ArePlacedNames model (option_copied placed.entry)
        → result ≡ is_output_pin model pin.now }
{
    match placed {
        None => false,
        Some(names) => names.has_output(pin.formal.as_slice()),
    }
}

// Whether a pin is of this kind, by the ports of the model that its line names.
fn is_of_kind(kind: PinKind, placed: Option<&PortNames<'_>>, pin: &Pin) -> bool
    ensures { (model : Option Model) → ArePlacedNames model (option_copied placed.entry)
        → result ≡ is_pin_of kind model pin.now }
{
    match kind {
        PinKind::Input => is_input(placed, pin),
        PinKind::Output => is_output(placed, pin),
        PinKind::Unknown => !(is_input(placed, pin) || is_output(placed, pin)),
    }
}

// Adds the actuals of a line's pins of one kind.
fn push_pins<'a>(
    words: &mut Vec<Word<'a>>,
    kind: PinKind,
    placed: Option<&PortNames<'_>>,
    subckt: &'a Subckt,
) -> Result<(), AllocError>
    ensures { OnOk result ((model : Option Model) →
        ArePlacedNames model (option_copied placed.entry) →
        word_ports words.new.items ≡
        word_ports words.old.items ++
        filter_map (actual_if (is_pin_of kind model) subckt.now.line) subckt.now.pins) }
{
    for pin in subckt.pins.as_slice() {
        if is_of_kind(kind, placed, pin) {
            words.push(Word {
                line: subckt.line,
                name: pin.actual.as_slice(),
            })?;
        }
    }
    Ok(())
}

/// Adds the actuals of a model's pins of one kind.
pub fn push_actuals<'a>(
    words: &mut Vec<Word<'a>>,
    kind: PinKind,
    model: &'a Model,
    placed: &PlacedPorts<'_, 'a>,
) -> Result<(), AllocError>
    ensures { OnOk result ((models : List Model) → KnowsPlaced placed.now models model.now →
        word_ports words.new.items ≡
        word_ports words.old.items ++ actuals models (is_pin_of kind) model.now) }
{
    for subckt in model.subckts.as_slice() {
        push_pins(words, kind, placed.find(subckt.model.as_slice()), subckt)?;
    }
    Ok(())
}

/// Collects the actuals of a model's pins of one kind.
pub fn actual_words<'a>(
    alloc: Global,
    kind: PinKind,
    model: &'a Model,
    placed: &PlacedPorts<'_, 'a>,
) -> Result<Vec<Word<'a>>, AllocError>
    ensures { IfOk result (λ words. (models : List Model) → KnowsPlaced placed.now models model.now
        → word_ports words.items ≡ actuals models (is_pin_of kind) model.now) }
{
    let mut words = Vec::new(alloc);
    push_actuals(&mut words, kind, model, placed)?;
    Ok(words)
}
