// Words of a list whose names stand earlier in it: on an earlier line, or before them on the same
// line.
ghost use Rattle.std.specs.Prelude.{◌≡◌, List, [], ◌∷◌, IfOk, OnOk};
ghost use Rattle.netlist_core.specs.declared.model.Port.{Port};
ghost use Rattle.netlist_rules.specs.Drivers.{stands_earlier, firsts, repeats};
ghost use Rattle.model_words.specs.Words.{earliest_word, earliest_after};
ghost use Rattle.net_faults.specs.declared.numbering.Numbering as numbered;
ghost use Rattle.net_faults.specs.Numbering.{AreNumbered, IsNumbered, numbered_port, numbered_ports};
ghost use Rattle.net_faults.specs.Repeats.{IsBetween};

use crate::first_lines::FirstLines;
use crate::numbering::{NumberedWord, Numbering};
use model_words::Earliest;
use std::alloc::{AllocError, Global};

/// A pass over the words of a list, which tells of each whether its name stands earlier.
#[derive(Drop)]
pub struct Repeats {
    all: FirstLines,
    passed: FirstLines,
}

impl Repeats {
    /// Makes the pass before the first of these words.
    pub fn new(
        alloc: Global,
        names: &Numbering<'_>,
        words: &[NumberedWord<'_>],
    ) -> Result<Repeats, AllocError>
        requires { AreNumbered names.now words.now }
        ensures { IfOk result (λ repeats. IsBetween names.now repeats []
            (numbered_ports words.now)) }
    {
        Ok(Repeats {
            all: FirstLines::of(alloc, names, words)?,
            passed: FirstLines::new(alloc, names)?,
        })
    }

    /// Passes the next word, and returns whether its name stands earlier.
    pub fn pass(&mut self, word: NumberedWord<'_>) -> bool
        ensures told { (names : numbered.Numbering) (before after : List Port) →
            IsNumbered names word.entry →
            IsBetween names self.old before (numbered_port word.entry ∷ after) →
            result ≡ stands_earlier before (numbered_port word.entry) after }
        ensures passed { (names : numbered.Numbering) (before after : List Port) →
            IsNumbered names word.entry →
            IsBetween names self.old before (numbered_port word.entry ∷ after) →
            IsBetween names self.new (numbered_port word.entry ∷ before) after }
    {
        let has_passed = self.passed.insert(word);
        has_passed || self.all.has_before(word)
    }
}

/// Collects the words of the list whose names do not stand earlier.
pub fn firsts<'a>(
    alloc: Global,
    names: &Numbering<'a>,
    words: &[NumberedWord<'a>],
) -> Result<Vec<NumberedWord<'a>>, AllocError>
    requires { AreNumbered names.now words.now }
    ensures words { IfOk result (λ found. numbered_ports found.items ≡
        firsts (numbered_ports words.now)) }
    ensures numbers { IfOk result (λ found. AreNumbered names.now found.items) }
{
    let mut repeats = Repeats::new(alloc, names, words)?;
    let mut found = Vec::new(alloc);
    for word in words {
        if !repeats.pass(*word) {
            found.push(*word)?;
        }
    }
    drop(repeats);
    Ok(found)
}

/// Offers the words of the list whose names stand earlier.
pub fn offer_repeats<'a>(
    alloc: Global,
    names: &Numbering<'a>,
    words: &[NumberedWord<'a>],
    earliest: &mut Earliest<'a>,
) -> Result<(), AllocError>
    requires { AreNumbered names.now words.now }
    ensures { OnOk result (
        earliest_word earliest.new
        ≡ earliest_after (earliest_word earliest.old) (repeats (numbered_ports words.now))
        ) }
{
    let mut repeats = Repeats::new(alloc, names, words)?;
    for word in words {
        if repeats.pass(*word) {
            earliest.offer(word.word);
        }
    }
    drop(repeats);
    Ok(())
}
