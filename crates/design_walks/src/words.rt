// The names on the lines of a model, each with its line.
ghost use Rattle.std.specs.Prelude.{◌≡◌, ◌++◌, [], ◌∷◌, map, flat_map, IfOk, OnOk};
ghost use Rattle.netlist_core.specs.Names.{at_line};
ghost use Rattle.netlist_meaning.specs.InOrder.{cover_words, latch_words, subckt_words, model_words};
ghost use Rattle.design_walks.specs.Words.{as_ports};

use netlist_core::{Cover, LatchRow, Model, Name, Port, Subckt};
use std::alloc::{AllocError, Global};

/// A name with the number of its line.
#[derive(Clone, Copy)]
pub struct Word<'a> {
    pub line: u64,
    pub name: &'a [u8],
}

// Adds a name.
fn push_name<'a>(words: &mut Vec<Word<'a>>, line: u64, name: &'a Name) -> Result<(), AllocError>
    ensures { OnOk result (
        as_ports words.new.items ≡ as_ports words.old.items ++ at_line line name.now ∷ []
        ) }
{
    words.push(Word {
        line,
        name: name.as_slice(),
    })?;
    Ok(())
}

// Adds names of one line.
fn push_names<'a>(words: &mut Vec<Word<'a>>, line: u64, names: &'a [Name]) -> Result<(), AllocError>
    ensures { OnOk result (
        as_ports words.new.items ≡ as_ports words.old.items ++ map (at_line line) names.now
        ) }
{
    for name in names {
        push_name(words, line, name)?;
    }
    Ok(())
}

fn push_ports<'a>(words: &mut Vec<Word<'a>>, ports: &'a [Port]) -> Result<(), AllocError>
    ensures { OnOk result (as_ports words.new.items ≡ as_ports words.old.items ++ ports.now) }
{
    for port in ports {
        push_name(words, port.line, &port.name)?;
    }
    Ok(())
}

fn push_cover<'a>(words: &mut Vec<Word<'a>>, cover: &'a Cover) -> Result<(), AllocError>
    ensures { OnOk result (as_ports words.new.items ≡
        as_ports words.old.items ++ cover_words cover.now) }
{
    push_names(words, cover.line, cover.ins.as_slice())?;
    push_name(words, cover.line, &cover.out)
}

fn push_latch<'a>(words: &mut Vec<Word<'a>>, latch: &'a LatchRow) -> Result<(), AllocError>
    ensures { OnOk result (as_ports words.new.items ≡
        as_ports words.old.items ++ latch_words latch.now) }
{
    push_name(words, latch.line, &latch.input)?;
    push_name(words, latch.line, &latch.output)?;
    match &latch.control {
        None => Ok(()),
        Some(control) => push_name(words, latch.line, control),
    }
}

fn push_subckt<'a>(words: &mut Vec<Word<'a>>, line: &'a Subckt) -> Result<(), AllocError>
    ensures { OnOk result (as_ports words.new.items ≡
        as_ports words.old.items ++ subckt_words line.now) }
{
    for pin in line.pins.as_slice() {
        push_name(words, line.line, &pin.actual)?;
    }
    Ok(())
}

fn push_covers<'a>(words: &mut Vec<Word<'a>>, covers: &'a [Cover]) -> Result<(), AllocError>
    ensures { OnOk result (
        as_ports words.new.items ≡ as_ports words.old.items ++ flat_map cover_words covers.now
        ) }
{
    for cover in covers {
        push_cover(words, cover)?;
    }
    Ok(())
}

fn push_latches<'a>(words: &mut Vec<Word<'a>>, latches: &'a [LatchRow]) -> Result<(), AllocError>
    ensures { OnOk result (
        as_ports words.new.items ≡ as_ports words.old.items ++ flat_map latch_words latches.now
        ) }
{
    for latch in latches {
        push_latch(words, latch)?;
    }
    Ok(())
}

fn push_subckts<'a>(words: &mut Vec<Word<'a>>, lines: &'a [Subckt]) -> Result<(), AllocError>
    ensures { OnOk result (
        as_ports words.new.items ≡ as_ports words.old.items ++ flat_map subckt_words lines.now
        ) }
{
    for line in lines {
        push_subckt(words, line)?;
    }
    Ok(())
}

// Adds the words of a model's lines to an empty list.
fn push_model_words<'a>(words: &mut Vec<Word<'a>>, model: &'a Model) -> Result<(), AllocError>
    requires { words.old.items ≡ [] }
    ensures { OnOk result (as_ports words.new.items ≡ model_words model.now) }
{
    push_ports(words, model.ins.as_slice())?;
    push_ports(words, model.outs.as_slice())?;
    push_ports(words, model.clocks.as_slice())?;
    push_covers(words, model.covers.as_slice())?;
    push_latches(words, model.latches.as_slice())?;
    push_subckts(words, model.subckts.as_slice())?;
    Ok(())
}

/// Collects the names on a model's lines, list by list.
pub fn words_of(alloc: Global, model: &Model) -> Result<Vec<Word<'_>>, AllocError>
    ensures { IfOk result (λ words. as_ports words.items ≡ model_words model.now) }
{
    let mut words = Vec::new(alloc);
    push_model_words(&mut words, model)?;
    Ok(words)
}
