// Each name where it first stands, with its position.
ghost use Rattle.std.specs.Prelude.{◌≡◌, Contains, slice_get, Some, IfOk, MatchOption};
ghost use Rattle.netlist_core.specs.Names.{port_names};
ghost use Rattle.netlist_meaning.specs.InOrder.{by_line, model_words, names_in_order};
ghost use Rattle.netlist_meaning.specs.InOrder as naming;
ghost use Rattle.design_walks.specs.Words.{as_ports, bytes_of};

use crate::words::{Word, words_of};
use indexmap::IndexSet;
use netlist_core::Model;
use std::alloc::{AllocError, Global};

/// The names of a model, each once, in the order in which they first stand in its text. Contracts
/// see the list of the names.
#[derive(Drop)]
pub struct ModelNames<'a> {
    names: IndexSet<&'a [u8]>,
}

impl<'a> std::marker::Model for ModelNames<'a> {
    ghost use Rattle.std.specs.Prelude.{List, ℕ};
    ghost use Rattle.design_walks.specs.Words.{bytes_of};

    ghost Value = { List (List ℕ) };

    ghost view = { λ m. bytes_of m.names.keys };
}

impl<'a> ModelNames<'a> {
    /// Collects the names of a model, in the order in which they first stand in its text.
    pub fn of(alloc: Global, model: &'a Model) -> Result<ModelNames<'a>, AllocError>
        ensures { IfOk result (λ names. names ≡ names_in_order model.now) }
    {
        let words = words_by_line(alloc, model)?;
        let names = first_names(alloc, &words);
        drop(words);
        Ok(ModelNames { names: names? })
    }

    /// Returns the names, in order.
    pub fn as_slice(&self) -> &[&'a [u8]]
        ensures { bytes_of result.now ≡ self.now }
    {
        self.names.as_slice()
    }

    /// Returns the position of a name among the names, if it is one of them.
    pub fn position(&self, name: &[u8]) -> Option<usize>
        ensures { MatchOption result (¬ Contains self.now name.now) (λ position.
            slice_get self.now position ≡ Some name.now
            ) }
    {
        self.names.get_index_of(name)
    }
}

// The words of a model by line; those of one line keep their order.
fn words_by_line(alloc: Global, model: &Model) -> Result<Vec<Word<'_>>, AllocError>
    ensures { IfOk result (λ words. as_ports words.items ≡ by_line (model_words model.now)) }
{
    let mut words = words_of(alloc, model)?;
    words.sort_by_key(|word| word.line)?;
    Ok(words)
}

// The names of words, each where it first stands.
fn first_names<'a>(alloc: Global, words: &[Word<'a>]) -> Result<IndexSet<&'a [u8]>, AllocError>
    ensures { IfOk result (λ names.
        bytes_of names.keys ≡ naming.first_names (port_names (as_ports words.now))
        ) }
{
    let mut names = IndexSet::new(alloc);
    for word in words {
        names.insert(word.name)?;
    }
    Ok(names)
}
