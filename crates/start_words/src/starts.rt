// The starts that words set, for each latch in each context.
ghost use Rattle.std.specs.Prelude.{◌≡◌, ◌<◌, ◌^◌, ◌⊎◌, ℕ, List, length, map, string_bytes, None, IfOk, IfErr, OnOk};
ghost use Rattle.start_words.specs.Flats.{AreBitsSet, flat_latches, flat_start_bit, flat_start_bits, flat_starts};
ghost use Rattle.start_words.specs.Words.{HasStartCause, first_fault, start_fault};
ghost use Rattle.start_words.specs.declared.error.StartError.TheVariants.{NoMemory, Fault};

use crate::error::{StartError, StartFault, StartFaultKind};
use crate::words::{output_class, start_in};
use lists::List;
use netlist_core::{Flat, FlatLatch};
use std::alloc::{AllocError, Global};
use std::collections::BTreeMap;

/// The bits that words set, by the number of a context and the class of a latch's output.
#[derive(Drop)]
pub struct Starts {
    pub bits: BTreeMap<(u64, u32), bool>,
}

// The error for a word at fault: the fault with a copy of the word, or `NoMemory`.
fn refusal(alloc: Global, kind: StartFaultKind, word: &[u8]) -> StartError
    ensures { (result ≡ NoMemory) ⊎ (result ≡ Fault (start_fault word.now kind)) }
{
    match word.to_vec(alloc) {
        Ok(bytes) => StartError::Fault(StartFault {
            kind,
            word: List::of(bytes),
        }),
        Err(_) => StartError::NoMemory,
    }
}

impl Starts {
    /// Reads the starts that words such as `1:q=0` set for the latches of a flat netlist. Each word
    /// names a context, from 0 and below `contexts`, a net of the main model that is joined with a
    /// latch's output, and a bit. A word is cut at its last `=`, and before that at its first `:`.
    pub fn read(
        alloc: Global,
        flat: &Flat,
        words: &[String],
        contexts: u64,
    ) -> Result<Starts, StartError>
        requires { length flat.now.latches < 2 ^ 32 }
        ensures starts { IfOk result (λ starts.
            AreBitsSet (flat_latches flat.now) starts.bits (map string_bytes words.now)
            ) }
        ensures sound { OnOk result (
            first_fault (flat_latches flat.now) contexts (map string_bytes words.now) ≡ None
            ) }
        ensures fault { IfErr result (
            HasStartCause (flat_latches flat.now) contexts (map string_bytes words.now)
            ) }
    {
        let mut bits = BTreeMap::new(alloc);
        for word in words {
            match start_in(flat, &bits, contexts, word.as_bytes()) {
                Ok(start) => {
                    bits.insert((start.context, start.class), start.bit)?;
                }
                Err(kind) => return Err(refusal(alloc, kind, word.as_bytes())),
            }
        }
        Ok(Starts { bits })
    }

    // The bit with which a latch starts in a context: the bit that is set, or else 1 if its init is
    // 1, and 0 otherwise.
    fn bit(&self, flat: &Flat, latch: &FlatLatch, context: u64) -> bool
        ensures { (words : List (List ℕ))
            → AreBitsSet (flat_latches flat.now) self.now.bits words
            → result ≡ flat_start_bit flat.now words context latch.now }
    {
        let class = output_class(flat, latch);
        match self.bits.get(&(context, class)) {
            Some(bit) => *bit,
            None => latch.init == 1,
        }
    }

    // The bits with which the latches start in a context, in order.
    fn in_context(&self, alloc: Global, flat: &Flat, context: u64) -> Result<List<bool>, AllocError>
        ensures { IfOk result (λ bits.
            (words : List (List ℕ))
            → AreBitsSet (flat_latches flat.now) self.now.bits words
            → bits ≡ flat_start_bits flat.now words context
            ) }
    {
        let latches = flat.latches.as_slice();
        let mut bits = Vec::with_capacity(alloc, latches.len())?;
        for latch in latches {
            bits.push(self.bit(flat, latch, context))?;
        }
        Ok(List::of(bits))
    }

    /// Returns the bits with which the latches of the flat netlist start in each context: one list
    /// for each context, with one bit for each latch.
    pub fn in_contexts(
        &self,
        alloc: Global,
        flat: &Flat,
        contexts: u64,
    ) -> Result<List<List<bool>>, AllocError>
        ensures { IfOk result (λ starts.
            (words : List (List ℕ))
            → AreBitsSet (flat_latches flat.now) self.now.bits words
            → starts ≡ flat_starts flat.now words contexts
            ) }
    {
        let mut starts = Vec::new(alloc);
        for context in 0..contexts {
            starts.push(self.in_context(alloc, flat, context)?)?;
        }
        Ok(List::of(starts))
    }
}
