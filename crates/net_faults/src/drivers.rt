// What drives the nets of a model.
ghost use Rattle.std.specs.Prelude.{◌≡◌, ◌++◌, List, map, IfOk, OnOk};
ghost use Rattle.netlist_core.specs.declared.model.Model.{Model};
ghost use Rattle.netlist_rules.specs.Drivers.{cover_output, latch_output};
ghost use Rattle.model_words.specs.Words.{word_ports};
ghost use Rattle.model_words.specs.Placed.{KnowsPlaced};
ghost use Rattle.net_faults.specs.NetWords.{other_drivers};

use crate::pins::{PinKind, push_actuals};
use model_words::{PlacedPorts, Word};
use netlist_core::{Cover, LatchRow, Model};
use std::alloc::{AllocError, Global};

// Adds the outputs of some covers.
fn push_cover_outputs<'a>(words: &mut Vec<Word<'a>>, covers: &'a [Cover]) -> Result<(), AllocError>
    ensures { OnOk result (
        word_ports words.new.items ≡ word_ports words.old.items ++ map cover_output covers.now
        ) }
{
    for cover in covers {
        words.push(Word {
            line: cover.line,
            name: cover.out.as_slice(),
        })?;
    }
    Ok(())
}

// Adds the outputs of some latches.
fn push_latch_outputs<'a>(
    words: &mut Vec<Word<'a>>,
    latches: &'a [LatchRow],
) -> Result<(), AllocError>
    ensures { OnOk result (
        word_ports words.new.items ≡ word_ports words.old.items ++ map latch_output latches.now
        ) }
{
    for latch in latches {
        words.push(Word {
            line: latch.line,
            name: latch.output.as_slice(),
        })?;
    }
    Ok(())
}

/// Collects the drivers of a model's nets other than its inputs.
pub fn other_drivers<'a>(
    alloc: Global,
    model: &'a Model,
    placed: &PlacedPorts<'_, 'a>,
) -> Result<Vec<Word<'a>>, AllocError>
    ensures { IfOk result (λ words. (models : List Model) → KnowsPlaced placed.now models model.now
        → word_ports words.items ≡ other_drivers models model.now) }
{
    let mut words = Vec::new(alloc);
    push_cover_outputs(&mut words, model.covers.as_slice())?;
    push_latch_outputs(&mut words, model.latches.as_slice())?;
    push_actuals(&mut words, PinKind::Output, model, placed)?;
    Ok(words)
}
