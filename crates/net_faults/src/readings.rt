// What reads the nets of a model.
ghost use Rattle.std.specs.Prelude.{◌≡◌, ◌++◌, List, flat_map, IfOk, OnOk};
ghost use Rattle.netlist_core.specs.declared.model.Model.{Model};
ghost use Rattle.netlist_rules.specs.Drivers.{cover_readings, latch_readings, readings_of};
ghost use Rattle.model_words.specs.Words.{word_ports};
ghost use Rattle.model_words.specs.Placed.{KnowsPlaced};

use crate::pins::{PinKind, push_actuals};
use crate::words::port_words;
use model_words::{PlacedPorts, Word};
use netlist_core::{Cover, LatchRow, Model};
use std::alloc::{AllocError, Global};

// Adds the inputs of a cover.
fn push_cover_inputs<'a>(words: &mut Vec<Word<'a>>, cover: &'a Cover) -> Result<(), AllocError>
    ensures { OnOk result (
        word_ports words.new.items ≡ word_ports words.old.items ++ cover_readings cover.now
        ) }
{
    for name in cover.ins.as_slice() {
        words.push(Word {
            line: cover.line,
            name: name.as_slice(),
        })?;
    }
    Ok(())
}

// Adds the data and the control of a latch.
fn push_latch_inputs<'a>(words: &mut Vec<Word<'a>>, latch: &'a LatchRow) -> Result<(), AllocError>
    ensures { OnOk result (
        word_ports words.new.items ≡ word_ports words.old.items ++ latch_readings latch.now
        ) }
{
    words.push(Word {
        line: latch.line,
        name: latch.input.as_slice(),
    })?;
    if let Some(control) = &latch.control {
        words.push(Word {
            line: latch.line,
            name: control.as_slice(),
        })?;
    }
    Ok(())
}

// Adds what the covers of a model read.
fn push_covers<'a>(words: &mut Vec<Word<'a>>, covers: &'a [Cover]) -> Result<(), AllocError>
    ensures { OnOk result (
        word_ports words.new.items
        ≡ word_ports words.old.items ++ flat_map cover_readings covers.now
        ) }
{
    for cover in covers {
        push_cover_inputs(words, cover)?;
    }
    Ok(())
}

// Adds what the latches of a model read.
fn push_latches<'a>(words: &mut Vec<Word<'a>>, latches: &'a [LatchRow]) -> Result<(), AllocError>
    ensures { OnOk result (
        word_ports words.new.items
        ≡ word_ports words.old.items ++ flat_map latch_readings latches.now
        ) }
{
    for latch in latches {
        push_latch_inputs(words, latch)?;
    }
    Ok(())
}

/// Collects the words at which a model's nets are read.
pub fn reading_words<'a>(
    alloc: Global,
    model: &'a Model,
    placed: &PlacedPorts<'_, 'a>,
) -> Result<Vec<Word<'a>>, AllocError>
    ensures { IfOk result (λ words. (models : List Model) → KnowsPlaced placed.now models model.now
        → word_ports words.items ≡ readings_of models model.now) }
{
    let mut words = port_words(alloc, model.outs.as_slice())?;
    push_covers(&mut words, model.covers.as_slice())?;
    push_latches(&mut words, model.latches.as_slice())?;
    push_actuals(&mut words, PinKind::Input, model, placed)?;
    Ok(words)
}
