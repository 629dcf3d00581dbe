// One start word: the context, the class of the latch's output and the bit, or the word's fault.
ghost use Rattle.std.specs.Prelude.{◌≡◌, ◌<◌, ◌^◌, ℕ, List, length, false, Some, None, IfOk, IfErr};
ghost use Rattle.std.specs.Bool.{then_some};
ghost use Rattle.std.specs.List.{list_any};
ghost use Rattle.streams.specs.Cuts.{bits_in};
ghost use Rattle.netlist_meaning.specs.Flat.{class_of};
ghost use Rattle.start_words.specs.Flats.{AreBitsSet, flat_latches};
ghost use Rattle.start_words.specs.Words.{Latches, context_in, start_word_fault, is_char_one, is_one_bit, net_of_word, sets};

use crate::error::StartFaultKind;
use netlist_core::{Flat, FlatLatch, latch_named};
use std::collections::BTreeMap;
use streams::{cut, cut_at_context};

/// What a word without a fault sets: in this context the latch whose output is of this class starts
/// with this bit.
#[derive(Clone, Copy)]
pub struct LatchStart {
    pub context: u64,
    pub class: u32,
    pub bit: bool,
}

/// Returns the class of a latch's output.
pub fn output_class(flat: &Flat, latch: &FlatLatch) -> u32
    ensures { result ≡ class_of flat.now latch.now.output }
{
    match flat.nets.as_slice().get(latch.output.0 as usize) {
        Some(net) => net.class,
        None => 0,
    }
}

// The class of the main model's net of that name, if a latch's output is of that class.
fn latch_class(flat: &Flat, name: &[u8]) -> Option<u32>
    requires { length flat.now.latches < 2 ^ 32 }
    ensures { result ≡ flat_latches flat.now name.now }
{
    let latch = latch_named(flat, name)?;
    Some(output_class(flat, &flat.latches.as_slice()[latch as usize]))
}

// The bit, if the bytes are the one character `0` or `1`.
fn one_bit(bytes: &[u8]) -> Option<bool>
    ensures { result ≡ then_some (is_one_bit bytes.now) (is_char_one bytes.now) }
{
    if bytes == b"1".as_slice() {
        Some(true)
    } else if bytes == b"0".as_slice() {
        Some(false)
    } else {
        None
    }
}

// Whether a word has set the latch in the context.
fn is_latch_set(set: &BTreeMap<(u64, u32), bool>, context: u64, class: u32) -> bool
    ensures { (latches : Latches) (before : List (List ℕ))
        → AreBitsSet latches set.now before
        → result ≡ list_any (sets latches context class) before }
{
    set.contains_key(&(context, class))
}

/// Returns what a word sets, or the word's fault. `set` has the bits that the words before it set.
pub fn start_in(
    flat: &Flat,
    set: &BTreeMap<(u64, u32), bool>,
    contexts: u64,
    word: &[u8],
) -> Result<LatchStart, StartFaultKind>
    requires { length flat.now.latches < 2 ^ 32 }
    ensures sound { IfOk result (λ start.
        (before : List (List ℕ))
        → AreBitsSet (flat_latches flat.now) set.now before
        → start_word_fault (flat_latches flat.now) contexts before word.now ≡ None
        ) }
    ensures unset { IfOk result (λ start.
        (before : List (List ℕ))
        → AreBitsSet (flat_latches flat.now) set.now before
        → list_any (sets (flat_latches flat.now) start.context start.class) before ≡ false
        ) }
    ensures context { IfOk result (λ start. start.context ≡ context_in word.now) }
    ensures class { IfOk result (λ start. flat_latches flat.now (net_of_word word.now) ≡
        Some start.class) }
    ensures bit { IfOk result (λ start. start.bit ≡ is_char_one (bits_in word.now)) }
    ensures fault { IfErr result (λ kind.
        (before : List (List ℕ))
        → AreBitsSet (flat_latches flat.now) set.now before
        → start_word_fault (flat_latches flat.now) contexts before word.now ≡ Some kind
        ) }
{
    let Some((name, bits)) = cut(word) else {
        return Err(StartFaultKind::NoEquals);
    };
    let Some((context, net)) = cut_at_context(name, contexts) else {
        return Err(StartFaultKind::BadContext);
    };
    let Some(class) = latch_class(flat, net) else {
        return Err(StartFaultKind::NoSuchLatch);
    };
    if is_latch_set(set, context, class) {
        return Err(StartFaultKind::TwiceLatch);
    }
    let Some(bit) = one_bit(bits) else {
        return Err(StartFaultKind::BadBit);
    };
    Ok(LatchStart {
        context,
        class,
        bit,
    })
}
