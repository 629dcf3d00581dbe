// The earliest line of each name of some words.
ghost use Rattle.std.specs.Prelude.{◌≡◌, false, nat_le, nat_lt, min, List, [], ◌∷◌, Some, slice_set, IfOk};
ghost use Rattle.std.specs.Option.{option_map_or};
ghost use Rattle.std.specs.List.{list_any};
ghost use Rattle.netlist_core.specs.declared.model.Port.{Port};
ghost use Rattle.netlist_core.specs.Names.{is_named};
ghost use Rattle.netlist_rules.specs.Drivers.{same_name_before, same_name_up_to};
ghost use Rattle.net_faults.specs.declared.numbering.Numbering as numbered;
ghost use Rattle.net_faults.specs.Numbering.{AreNumbered, IsNumbered, numbered_port, numbered_ports};
ghost use Rattle.net_faults.specs.FirstLines.{AreFirstLines, HasNoLine, line_in};

use crate::numbering::{NumberedWord, Numbering};
use std::alloc::{AllocError, Global};

/// The earliest line on which each name of some words stands, by the name's number.
#[derive(Drop)]
pub struct FirstLines {
    lines: Vec<Option<u64>>,
}

// Room for the lines of so many numbers, none of them known.
fn no_lines(alloc: Global, count: usize) -> Result<Vec<Option<u64>>, AllocError>
    ensures { IfOk result (λ lines. HasNoLine count lines.items) }
{
    let mut lines = Vec::with_capacity(alloc, count)?;
    lines.resize(count, None)?;
    Ok(lines)
}

// The lesser of a line and another, if there is another.
fn lesser(line: u64, known: Option<u64>) -> u64
    ensures { result ≡ option_map_or (min line) known line }
{
    match known {
        None => line,
        Some(other) => line.min(other),
    }
}

// Whether a line is known and stands before this one.
fn is_before(known: Option<u64>, line: u64) -> bool
    ensures { result ≡ option_map_or (λ other. nat_lt other line) known false }
{
    match known {
        None => false,
        Some(other) => other < line,
    }
}

// Whether a line is known and stands up to this one.
fn is_up_to(known: Option<u64>, line: u64) -> bool
    ensures { result ≡ option_map_or (λ other. nat_le other line) known false }
{
    match known {
        None => false,
        Some(other) => other <= line,
    }
}

impl FirstLines {
    /// Makes the lines of no words, with room for the lines of these names.
    pub fn new(alloc: Global, names: &Numbering<'_>) -> Result<FirstLines, AllocError>
        ensures { IfOk result (λ lines. AreFirstLines names.now lines []) }
    {
        Ok(FirstLines {
            lines: no_lines(alloc, names.len())?,
        })
    }

    // The line that is kept at a number.
    fn line(&self, number: usize) -> Option<u64>
        ensures { result ≡ line_in self.now number }
    {
        if number < self.lines.len() {
            self.lines[number]
        } else {
            None
        }
    }

    // Keeps a line at a number, if there is room.
    fn put(&mut self, number: usize, line: u64)
        ensures { self.new.lines.items ≡ slice_set self.old.lines.items number (Some line) }
    {
        if number < self.lines.len() {
            self.lines[number] = Some(line);
        }
    }

    /// Adds a word, and returns whether its name stood before on a line up to the word's.
    pub fn insert(&mut self, word: NumberedWord<'_>) -> bool
        ensures stood { (names : numbered.Numbering) (ports : List Port) →
            IsNumbered names word.entry → AreFirstLines names self.old ports →
            result ≡ list_any (same_name_up_to (numbered_port word.entry)) ports }
        ensures added { (names : numbered.Numbering) (ports : List Port) →
            IsNumbered names word.entry → AreFirstLines names self.old ports →
            AreFirstLines names self.new (numbered_port word.entry ∷ ports) }
    {
        let known = self.line(word.number);
        self.put(word.number, lesser(word.word.line, known));
        is_up_to(known, word.word.line)
    }

    /// Returns whether the word's name stands on a line before the word's.
    pub fn has_before(&self, word: NumberedWord<'_>) -> bool
        ensures { (names : numbered.Numbering) (ports : List Port) → IsNumbered names word.entry →
            AreFirstLines names self.now ports →
            result ≡ list_any (same_name_before (numbered_port word.entry)) ports }
    {
        is_before(self.line(word.number), word.word.line)
    }

    /// Returns whether the word's name stands on a line up to the word's.
    pub fn has_up_to(&self, word: NumberedWord<'_>) -> bool
        ensures { (names : numbered.Numbering) (ports : List Port) → IsNumbered names word.entry →
            AreFirstLines names self.now ports →
            result ≡ list_any (same_name_up_to (numbered_port word.entry)) ports }
    {
        is_up_to(self.line(word.number), word.word.line)
    }

    /// Returns whether the name stands on any line.
    pub fn has_name(&self, names: &Numbering<'_>, name: &[u8]) -> bool
        ensures { (ports : List Port)
            → AreFirstLines names.now self.now ports
            → result ≡ is_named ports name.now }
    {
        match names.find(name) {
            None => false,
            Some(number) => self.line(number).is_some(),
        }
    }

    /// Collects the earliest lines of the names of these words.
    pub fn of(
        alloc: Global,
        names: &Numbering<'_>,
        words: &[NumberedWord<'_>],
    ) -> Result<FirstLines, AllocError>
        requires { AreNumbered names.now words.now }
        ensures { IfOk result (λ lines. AreFirstLines names.now lines (numbered_ports words.now)) }
    {
        let mut lines = FirstLines::new(alloc, names)?;
        for word in words {
            lines.insert(*word);
        }
        Ok(lines)
    }
}
