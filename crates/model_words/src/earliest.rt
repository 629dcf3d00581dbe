// The earliest of the words so far.
ghost use Rattle.std.specs.Prelude.{◌≡◌, None, ◌∷◌, [], cond, nat_le, option_map, IfOk};
ghost use Rattle.netlist_rules.specs.ModelFaults.{fault_of_port};
ghost use Rattle.model_words.specs.Words.{word_port, earliest_word, earliest_after};

use crate::word::Word;
use lists::List;
use netlist_rules::{Fault, FaultKind};
use std::alloc::{AllocError, Global};

/// The word on the earliest line of those offered so far; on one line the word that was offered
/// first.
#[derive(Clone, Copy)]
pub struct Earliest<'a> {
    word: Option<Word<'a>>,
}

// The earlier of two words, or the first of two on one line.
fn earlier<'a>(first: Word<'a>, second: Word<'a>) -> Word<'a>
    ensures { word_port result
        ≡ cond (nat_le first.entry.line second.entry.line) (word_port first.entry) (
        word_port second.entry
        ) }
{
    if first.line <= second.line {
        first
    } else {
        second
    }
}

impl<'a> Earliest<'a> {
    /// Makes the state in which no word has been offered.
    pub fn new() -> Earliest<'a>
        ensures { earliest_word result ≡ None }
    {
        Earliest { word: None }
    }

    /// Offers one more word, which is kept if it is on an earlier line than the one so far.
    pub fn offer(&mut self, word: Word<'a>)
        ensures { earliest_word self.new ≡ earliest_after (earliest_word self.old)
            (word_port word.entry ∷ []) }
    {
        self.word = match self.word {
            None => Some(word),
            Some(first) => Some(earlier(first, word)),
        };
    }

    /// Returns the fault of this kind at the word that is kept, with a copy of its name. `None`
    /// comes if no word was offered.
    pub fn fault(&self, alloc: Global, kind: FaultKind) -> Result<Option<Fault>, AllocError>
        ensures { IfOk result (λ found. found ≡
            option_map (fault_of_port kind) (earliest_word self.now)) }
    {
        match self.word {
            None => Ok(None),
            Some(word) => Ok(Some(Fault {
                kind,
                line: word.line,
                word: List::of(word.name.to_vec(alloc)?),
            })),
        }
    }
}
