// Names by number.
ghost use Rattle.std.specs.Prelude.{◌≡◌, List, IfOk, OnOk};
ghost use Rattle.netlist_core.specs.declared.model.Port.{Port};
ghost use Rattle.model_words.specs.Words.{word_ports};
ghost use Rattle.net_faults.specs.Numbering.{AreNumbered, IsNumbering, GivesNumber, KeepsNumbers, count_of, name_number, numbered_ports};

use model_words::Word;
use std::alloc::{AllocError, Global};
use std::collections::BTreeMap;

/// Names, each with a number: they are counted from 0, in the order in which they first come.
#[derive(Drop)]
pub struct Numbering<'a> {
    numbers: BTreeMap<&'a [u8], usize>,
    names: Vec<&'a [u8]>,
}

/// A word with the number of its name.
#[derive(Clone, Copy)]
pub struct NumberedWord<'a> {
    pub word: Word<'a>,
    pub number: usize,
}

impl<'a> Numbering<'a> {
    /// Makes the numbering of no names.
    pub fn new(alloc: Global) -> Numbering<'a>
        ensures { IsNumbering result }
    {
        Numbering {
            numbers: BTreeMap::new(alloc),
            names: Vec::new(alloc),
        }
    }

    /// Returns how many names there are.
    pub fn len(&self) -> usize
        ensures { result ≡ count_of self.now }
    {
        self.names.len()
    }

    /// Returns the number of a name, if it has one.
    pub fn find(&self, name: &[u8]) -> Option<usize>
        ensures { result ≡ name_number self.now name.now }
    {
        self.numbers.get(name).copied()
    }

    // Gives a name this number, and returns the one that it had.
    fn put(&mut self, name: &'a [u8], number: usize) -> Result<Option<usize>, AllocError>
        ensures old { IfOk result (λ known. known ≡ name_number self.old name.now) }
        ensures new { OnOk result (GivesNumber self.old self.new name.now number) }
        ensures names { self.new.names.items ≡ self.old.names.items }
    {
        Ok(self.numbers.insert(name, number)?)
    }

    // The number of a name: the next one if it had none.
    fn number(&mut self, name: &'a [u8]) -> Result<usize, AllocError>
        requires { IsNumbering self.old }
        ensures number { IfOk result (λ number. name_number self.new name.now ≡ Some number) }
        ensures numbering { OnOk result (IsNumbering self.new) }
        ensures keeps { OnOk result (KeepsNumbers self.old self.new) }
    {
        let next = self.len();
        match self.put(name, next)? {
            None => {
                self.names.push(name)?;
                Ok(next)
            }
            Some(number) => {
                self.put(name, number)?;
                Ok(number)
            }
        }
    }

    /// Gives each word the number of its name; new names are numbered next.
    pub fn number_words(
        &mut self,
        alloc: Global,
        words: &[Word<'a>],
    ) -> Result<Vec<NumberedWord<'a>>, AllocError>
        requires { IsNumbering self.old }
        ensures words { IfOk result (λ numbered. numbered_ports numbered.items ≡
            word_ports words.now) }
        ensures numbers { IfOk result (λ numbered. AreNumbered self.new numbered.items) }
        ensures numbering { OnOk result (IsNumbering self.new) }
        ensures keeps { OnOk result (KeepsNumbers self.old self.new) }
    {
        let mut numbered = Vec::with_capacity(alloc, words.len())?;
        for word in words {
            let number = self.number(word.name)?;
            numbered.push(NumberedWord {
                word: *word,
                number,
            })?;
        }
        Ok(numbered)
    }

    /// Gives each word of a result the number of its name, or returns the result's error.
    pub fn number_found(
        &mut self,
        alloc: Global,
        words: Result<Vec<Word<'a>>, AllocError>,
    ) -> Result<Vec<NumberedWord<'a>>, AllocError>
        requires { IsNumbering self.old }
        ensures words { IfOk result (λ numbered.
            (ports : List Port)
            → IfOk words.entry (λ found. word_ports found.items ≡ ports)
            → numbered_ports numbered.items ≡ ports
            ) }
        ensures numbers { IfOk result (λ numbered. AreNumbered self.new numbered.items) }
        ensures numbering { OnOk result (IsNumbering self.new) }
        ensures keeps { OnOk result (KeepsNumbers self.old self.new) }
    {
        let words = words?;
        self.number_words(alloc, &words)
    }
}
