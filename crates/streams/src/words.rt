// One stream word: the name of an input and its bits, or the word's fault.
ghost use Rattle.std.specs.Prelude.{◌≡◌, ◌&&◌, ℕ, List, true, false, Some, None, IfOk, IfErr};
ghost use Rattle.std.specs.List.{list_any, list_all};
ghost use Rattle.streams.specs.Cuts.{is_equals_sign, name_in, bits_in, names_context};
ghost use Rattle.streams.specs.Words.{context_of_word, input_of_word, is_word_for, is_bit, fault_of_word};
ghost use Rattle.streams.specs.GivenBits.{AreNamesOf, AreBitsOf};
ghost use Rattle.lists.specs.Names.{is_among};

use crate::context_cuts::cut_if_several;
use crate::cuts::cut;
use crate::error::StreamFaultKind;
use std::collections::{BTreeMap, BTreeSet};

/// A word without a fault: the input that it is for, and its bits.
#[derive(Clone, Copy)]
pub struct StreamWord<'a> {
    pub context: u64,
    pub name: &'a [u8],
    pub bits: &'a [u8],
}

// Whether all bytes are `0` or `1`.
fn are_bits(bytes: &[u8]) -> bool
    ensures { result ≡ list_all is_bit bytes.now }
{
    bytes.iter().all(|b| *b == b'0' || *b == b'1')
}

// Whether there is an input of that name.
fn is_input(known: &BTreeSet<&[u8]>, name: &[u8]) -> bool
    ensures { (names : List (List ℕ)) → AreNamesOf known.now names →
        result ≡ is_among name.now names }
{
    known.contains(name)
}

// Whether a word has given this input its bits.
fn is_taken<'a>(given: &BTreeMap<(u64, &'a [u8]), &'a [u8]>, context: u64, name: &'a [u8]) -> bool
    ensures { (contexts : ℕ) (before : List (List ℕ))
        → AreBitsOf contexts given.now before
        → result ≡ list_any (is_word_for contexts context name.now) before }
{
    given.contains_key(&(context, name))
}

/// Returns the input and the bits of a word, or the word's fault. `given` has the bits of the words
/// before it.
pub fn cut_sound<'a>(
    known: &BTreeSet<&[u8]>,
    given: &BTreeMap<(u64, &'a [u8]), &'a [u8]>,
    cycles: usize,
    contexts: u64,
    word: &'a [u8],
) -> Result<StreamWord<'a>, StreamFaultKind>
    ensures sound { IfOk result (λ cut.
        (names before : List (List ℕ))
        → AreNamesOf known.now names
        → AreBitsOf contexts given.now before
        → fault_of_word contexts names cycles before word.now ≡ None
        ) }
    ensures untaken { IfOk result (λ cut.
        (before : List (List ℕ))
        → AreBitsOf contexts given.now before
        → list_any (
        is_word_for contexts (context_of_word contexts word.now) (input_of_word contexts word.now)
        ) before
        ≡ false
        ) }
    ensures is_cut { IfOk result (λ cut.
        (list_any is_equals_sign word.now && names_context contexts (name_in word.now)) ≡ true
        ) }
    ensures context { IfOk result (λ cut. cut.context ≡ context_of_word contexts word.now) }
    ensures name { IfOk result (λ cut. cut.name.now ≡ input_of_word contexts word.now) }
    ensures bits { IfOk result (λ cut. cut.bits.now ≡ bits_in word.now) }
    ensures fault { IfErr result (λ kind.
        (names before : List (List ℕ))
        → AreNamesOf known.now names
        → AreBitsOf contexts given.now before
        → fault_of_word contexts names cycles before word.now ≡ Some kind
        ) }
{
    let Some((numbered, bits)) = cut(word) else {
        return Err(StreamFaultKind::NoEquals);
    };
    let Some((context, name)) = cut_if_several(numbered, contexts) else {
        return Err(StreamFaultKind::BadContext);
    };
    if !is_input(known, name) {
        return Err(StreamFaultKind::UnknownInput);
    }
    if is_taken(given, context, name) {
        return Err(StreamFaultKind::TwiceInput);
    }
    if !are_bits(bits) {
        return Err(StreamFaultKind::BadBit);
    }
    if bits.len() != cycles {
        return Err(StreamFaultKind::BadLength);
    }
    Ok(StreamWord {
        context,
        name,
        bits,
    })
}
