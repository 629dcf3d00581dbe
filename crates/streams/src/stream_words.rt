// Stream words without a fault, by input.
ghost use Rattle.std.specs.Prelude.{◌≡◌, ◌⊎◌, [], map, string_bytes, IfOk, IfErr};
ghost use Rattle.streams.specs.Streams.{HasWordFault, stream_fault, stream_faults_after};
ghost use Rattle.streams.specs.GivenBits.{AreNamesOf, AreBitsOf};
ghost use Rattle.streams.specs.declared.error.StreamError.TheVariants.{NoMemory, Fault};

use crate::error::{StreamError, StreamFault, StreamFaultKind};
use crate::words::cut_sound;
use lists::{Bytes, List};
use std::alloc::{AllocError, Global};
use std::collections::{BTreeMap, BTreeSet};

/// Returns the error for a word at fault: the fault with a copy of the word, or `NoMemory`.
pub fn refusal(alloc: Global, kind: StreamFaultKind, word: &[u8]) -> StreamError
    ensures { (result ≡ NoMemory) ⊎ (result ≡ Fault (stream_fault word.now kind)) }
{
    match word.to_vec(alloc) {
        Ok(bytes) => StreamError::Fault(StreamFault {
            kind,
            word: List::of(bytes),
        }),
        Err(_) => StreamError::NoMemory,
    }
}

// The names of the inputs.
fn known_names(alloc: Global, names: &[Bytes]) -> Result<BTreeSet<&[u8]>, AllocError>
    ensures { IfOk result (λ known. AreNamesOf known names.now) }
{
    let mut known = BTreeSet::new(alloc);
    for name in names {
        known.insert(name.as_slice())?;
    }
    Ok(known)
}

/// Returns the bits that words give to inputs of these names in each context, or the fault of the
/// first word at fault.
pub fn bits_by_input<'a>(
    alloc: Global,
    words: &'a [String],
    names: &[Bytes],
    cycles: usize,
    contexts: u64,
) -> Result<BTreeMap<(u64, &'a [u8]), &'a [u8]>, StreamError>
    ensures bits { IfOk result (λ given. AreBitsOf contexts given (map string_bytes words.now)) }
    ensures sound { IfOk result (λ given.
        stream_faults_after contexts names.now cycles [] (map string_bytes words.now) ≡ []
        ) }
    ensures fault { IfErr result (
        HasWordFault (
        stream_faults_after contexts names.now cycles [] (map string_bytes words.now)
        )
        ) }
{
    let known = known_names(alloc, names)?;
    let mut given = BTreeMap::new(alloc);
    for word in words {
        match cut_sound(&known, &given, cycles, contexts, word.as_bytes()) {
            Ok(cut) => {
                given.insert((cut.context, cut.name), cut.bits)?;
            }
            Err(kind) => return Err(refusal(alloc, kind, word.as_bytes())),
        }
    }
    Ok(given)
}
