// Names that are twice a port.
ghost use Rattle.std.specs.Prelude.{◌≡◌, ◌++◌, List, [], OnOk};
ghost use Rattle.netlist_core.specs.declared.model.Port.{Port};
ghost use Rattle.netlist_rules.specs.ModelFaults.{doubles_after, duplicate_ports};
ghost use Rattle.model_words.specs.Words.{earliest_word, earliest_after};
ghost use Rattle.net_faults.specs.declared.numbering.Numbering as numbered;
ghost use Rattle.net_faults.specs.Numbering.{AreNumbered, IsNumbered, numbered_port, numbered_ports};
ghost use Rattle.net_faults.specs.Elsewhere.{KnowsOthers, stands_elsewhere};
ghost use Rattle.net_faults.specs.FirstLines.{AreFirstLines};
ghost use Rattle.net_faults.specs.NetWords.{ArePortsOf, HaveNumbers};

use crate::first_lines::FirstLines;
use crate::net_words::NetWords;
use crate::numbering::{NumberedWord, Numbering};
use crate::repeats::Repeats;
use model_words::Earliest;
use netlist_core::Model;
use std::alloc::{AllocError, Global};

/// The other list of ports in which a port's name may stand as well.
#[derive(Clone, Copy)]
pub enum Elsewhere<'l> {
    /// A list in which the name counts if it stands on a line before the port's.
    Before(&'l FirstLines),
    /// A list in which the name counts if it stands on a line up to the port's.
    UpTo(&'l FirstLines),
}

// Whether the name of a word stands in the other list.
fn stands_elsewhere(elsewhere: Elsewhere<'_>, word: NumberedWord<'_>) -> bool
    ensures { (names : numbered.Numbering) (others : List Port) → IsNumbered names word.entry →
        KnowsOthers names elsewhere.entry others →
        result ≡ stands_elsewhere elsewhere.entry others (numbered_port word.entry) }
{
    match elsewhere {
        Elsewhere::Before(others) => others.has_before(word),
        Elsewhere::UpTo(others) => others.has_up_to(word),
    }
}

// Offers the words of a list whose names stand earlier in it, or count in the other list.
fn offer_doubles<'a>(
    alloc: Global,
    names: &Numbering<'a>,
    words: &[NumberedWord<'a>],
    elsewhere: Elsewhere<'_>,
    earliest: &mut Earliest<'a>,
) -> Result<(), AllocError>
    requires { AreNumbered names.now words.now }
    ensures { OnOk result ((others : List Port) → KnowsOthers names.now elsewhere.entry others →
        earliest_word earliest.new ≡
        earliest_after (earliest_word earliest.old)
        (doubles_after (stands_elsewhere elsewhere.entry others) [] (numbered_ports words.now))) }
{
    let mut repeats = Repeats::new(alloc, names, words)?;
    for word in words {
        if repeats.pass(*word) || stands_elsewhere(elsewhere, *word) {
            earliest.offer(word.word);
        }
    }
    drop(repeats);
    Ok(())
}

// Offers the names of a model that are twice a port, given the lines of its inputs and clocks and
// those of its outputs.
fn offer_duplicates_by<'a>(
    alloc: Global,
    model: &'a Model,
    words: &NetWords<'a>,
    inputs: &FirstLines,
    outputs: &FirstLines,
    earliest: &mut Earliest<'a>,
) -> Result<(), AllocError>
    requires numbers { HaveNumbers words.now }
    requires ports { ArePortsOf words.now model.now }
    requires inputs { AreFirstLines words.now.names inputs.now (model.now.ins ++ model.now.clocks) }
    requires outputs { AreFirstLines words.now.names outputs.now model.now.outs }
    ensures { OnOk result (
        earliest_word earliest.new
        ≡ earliest_after (earliest_word earliest.old) (duplicate_ports model.now)
        ) }
{
    let names = &words.names;
    let before = Elsewhere::Before(outputs);
    let up_to = Elsewhere::UpTo(inputs);
    let (ins, clocks) = words.inputs.split_at(model.ins.len());
    offer_doubles(alloc, names, ins, before, earliest)?;
    offer_doubles(alloc, names, clocks, before, earliest)?;
    offer_doubles(alloc, names, &words.outputs, up_to, earliest)?;
    Ok(())
}

/// Offers the names of a model that are twice a port: twice in `.inputs`, twice in `.clock`, twice
/// in `.outputs`, or among the inputs and in `.outputs`.
pub fn offer_duplicates<'a>(
    alloc: Global,
    model: &'a Model,
    words: &NetWords<'a>,
    earliest: &mut Earliest<'a>,
) -> Result<(), AllocError>
    requires numbers { HaveNumbers words.now }
    requires ports { ArePortsOf words.now model.now }
    ensures { OnOk result (
        earliest_word earliest.new
        ≡ earliest_after (earliest_word earliest.old) (duplicate_ports model.now)
        ) }
{
    let inputs = FirstLines::of(alloc, &words.names, &words.inputs)?;
    let outputs = FirstLines::of(alloc, &words.names, &words.outputs)?;
    let offered = offer_duplicates_by(alloc, model, words, &inputs, &outputs, earliest);
    drop(inputs);
    drop(outputs);
    offered
}
