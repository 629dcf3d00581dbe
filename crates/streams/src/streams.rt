// Streams of bits for the inputs, read from words.
ghost use Rattle.std.specs.Prelude.{◌≡◌, ◌++◌, ◌*◌, ◌⊎◌, ℕ, [], List, All, length, map, string_bytes, IfOk, IfErr, OnOk};
ghost use Rattle.std.specs.Option.{option_copied};
ghost use Rattle.streams.specs.declared.error.StreamError.TheVariants.{NoMemory, Fault};
ghost use Rattle.streams.specs.Streams.{HasStreams, HasStreamCause, IsMissing, bits_for, inputs_of_context, inputs_of_contexts, missing_fault, missing_inputs, stream_in, streams_of};
ghost use Rattle.streams.specs.GivenBits.{AreBitsOf};

use crate::context_cuts::with_context;
use crate::error::{StreamError, StreamFault, StreamFaultKind};
use crate::stream_words::{bits_by_input, refusal};
use lists::{Bytes, List};
use std::alloc::{AllocError, Global};
use std::collections::BTreeMap;

/// Streams of bits for the inputs in each of `c` contexts, all for `cycles` cycles. With n inputs,
/// list `k n + i` is the stream of input i in context k, and bit t of the list is the input's bit
/// in cycle t.
#[derive(Drop)]
pub struct Streams {
    pub cycles: usize,
    pub c: u64,
    pub bits: List<List<bool>>,
}

// The stream that bits spell.
fn stream_in(alloc: Global, bits: &[u8]) -> Result<Vec<bool>, AllocError>
    ensures { IfOk result (λ stream. stream.items ≡ stream_in bits.now) }
{
    bits.iter().map(|b| *b == b'1').collect(alloc)
}

// The bits that are given to an input.
fn bits_for<'a>(
    given: &BTreeMap<(u64, &'a [u8]), &'a [u8]>,
    context: u64,
    name: &'a [u8],
) -> Option<&'a [u8]>
    ensures { (contexts : ℕ) (words : List (List ℕ))
        → AreBitsOf contexts given.now words
        → option_copied result ≡ bits_for contexts words (context, name.now) }
{
    given.get(&(context, name)).copied()
}

// The error for an input without bits.
fn missing(alloc: Global, name: &[u8], context: u64, contexts: u64) -> StreamError
    ensures { (result ≡ NoMemory) ⊎ (result ≡ Fault (missing_fault contexts (context, name.now))) }
{
    match with_context(alloc, contexts, context, name) {
        Ok(word) => StreamError::Fault(StreamFault {
            kind: StreamFaultKind::MissingInput,
            word: List::of(word),
        }),
        Err(_) => StreamError::NoMemory,
    }
}

// Adds the streams of a context's inputs, if each input is given its bits.
fn push_context<'a>(
    alloc: Global,
    streams: &mut Vec<List<bool>>,
    given: &BTreeMap<(u64, &'a [u8]), &'a [u8]>,
    names: &'a [Bytes],
    context: u64,
    contexts: u64,
) -> Result<(), StreamError>
    ensures streams { OnOk result ((words : List (List ℕ)) → AreBitsOf contexts given.now words
        → streams.new.items ≡ streams.old.items ++
        streams_of contexts words (inputs_of_context context names.now)) }
    ensures none_missing { OnOk result ((words : List (List ℕ)) → AreBitsOf contexts given.now words
        → missing_inputs contexts words (inputs_of_context context names.now) ≡ []) }
    ensures missing { IfErr result (λ error. (words : List (List ℕ)) →
        AreBitsOf contexts given.now words
        → IsMissing contexts words (inputs_of_context context names.now) error) }
{
    for name in names {
        let Some(bits) = bits_for(given, context, name.as_slice()) else {
            return Err(missing(alloc, name.as_slice(), context, contexts));
        };
        streams.push(List::of(stream_in(alloc, bits)?))?;
    }
    Ok(())
}

// The streams of the inputs of each context, if each input is given its bits. Without inputs the
// contexts are not counted.
fn streams_of<'a>(
    alloc: Global,
    given: &BTreeMap<(u64, &'a [u8]), &'a [u8]>,
    names: &'a [Bytes],
    contexts: u64,
) -> Result<List<List<bool>>, StreamError>
    ensures streams { IfOk result (λ streams. (words : List (List ℕ)) →
        AreBitsOf contexts given.now words
        → streams ≡ streams_of contexts words (inputs_of_contexts contexts names.now)) }
    ensures none_missing { IfOk result (λ streams. (words : List (List ℕ)) →
        AreBitsOf contexts given.now words
        → missing_inputs contexts words (inputs_of_contexts contexts names.now) ≡ []) }
    ensures missing { IfErr result (λ error. (words : List (List ℕ)) →
        AreBitsOf contexts given.now words
        → IsMissing contexts words (inputs_of_contexts contexts names.now) error) }
{
    let mut streams = Vec::new(alloc);
    if names.is_empty() {
        return Ok(List::of(streams));
    }
    for context in 0..contexts {
        push_context(alloc, &mut streams, given, names, context, contexts)?;
    }
    Ok(List::of(streams))
}

impl Streams {
    /// Reads the streams that words give to the inputs of these names in each of c contexts. With
    /// one context a word is `a=0110`; with more it is `1:a=0110`, which begins with the number of
    /// a context, below c, without leading zeros. Each word has one bit for each cycle, and there
    /// is one word for each input of each context, in any order. A word is cut at its last `=`, and
    /// before that at its first `:`, so a name may have both. If c is 0, there are no streams, and
    /// each word is at fault.
    pub fn read(
        alloc: Global,
        words: &[String],
        names: &[Bytes],
        cycles: usize,
        c: u64,
    ) -> Result<Streams, StreamError>
        ensures cycles { IfOk result (λ streams. streams.cycles ≡ cycles) }
        ensures contexts { IfOk result (λ streams. streams.c ≡ c) }
        ensures streams { IfOk result (λ streams.
            HasStreams c (map string_bytes words.now) names.now cycles streams.bits
            ) }
        ensures many { IfOk result (λ streams. length streams.bits ≡ c * length names.now) }
        ensures long { IfOk result (λ streams. All (λ bits. length bits ≡ cycles) streams.bits) }
        ensures fault { IfErr result (HasStreamCause c (map string_bytes words.now) names.now
            cycles) }
    {
        let given = bits_by_input(alloc, words, names, cycles, c)?;
        let bits = streams_of(alloc, &given, names, c)?;
        Ok(Streams { cycles, c, bits })
    }
}
