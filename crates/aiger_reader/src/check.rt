// The fault of an entry.
ghost use Rattle.std.specs.Prelude.{◌≡◌, not, ◌∷◌, [], ◌++◌, List, Some, None, IfOk, OnOk};
ghost use Rattle.aiger_text.specs.EntryFaults.{defined_by, entry_fault, has_bad_literal, has_bad_reset, is_defined_before, is_past, is_undefinable, is_undefined, reads_undefined};
ghost use Rattle.aiger_text.specs.declared.section.Entry as entries;
ghost use Rattle.aiger_reader.specs.Known.{KnowsDefined};

use aiger_text::{AigFaultKind, Counts, Entry};
use std::alloc::{AllocError, Global};
use std::collections::BTreeSet;

// Whether a literal is past those of the greatest variable.
fn is_past(counts: Counts, lit: u64) -> bool
    ensures { result ≡ is_past counts lit }
{
    lit / 2 > counts.m
}

// Whether no line may define a literal.
fn is_undefinable(counts: Counts, lit: u64) -> bool
    ensures { result ≡ is_undefinable counts lit }
{
    is_past(counts, lit) || lit % 2 == 1 || lit < 2
}

fn has_bad_literal(counts: Counts, entry: Entry) -> bool
    ensures { result ≡ has_bad_literal counts entry }
{
    match entry {
        Entry::Input(lit) => is_undefinable(counts, lit),
        Entry::Latch(latch) => is_undefinable(counts, latch.lit) || is_past(counts, latch.next),
        Entry::Output(lit) => is_past(counts, lit),
        Entry::And(gate) => {
            is_undefinable(counts, gate.lhs)
                || is_past(counts, gate.rhs0)
                || is_past(counts, gate.rhs1)
        }
    }
}

fn has_bad_reset(entry: Entry) -> bool
    ensures { result ≡ has_bad_reset entry }
{
    match entry {
        Entry::Latch(latch) => { latch.reset != 0 && latch.reset != 1 && latch.reset != latch.lit }
        _ => false,
    }
}

fn defined_by(entry: Entry) -> Option<u64>
    ensures { result ≡ defined_by entry }
{
    match entry {
        Entry::Input(lit) => Some(lit),
        Entry::Latch(latch) => Some(latch.lit),
        Entry::Output(_) => None,
        Entry::And(gate) => Some(gate.lhs),
    }
}

// Adds the literal that an entry defines, and returns whether no earlier entry defines it.
fn define(defined: &mut BTreeSet<u64>, entry: Entry) -> Result<bool, AllocError>
    ensures fresh { IfOk result (λ fresh.
        (before : List entries.Entry)
        → KnowsDefined defined.old before
        → fresh ≡ not (is_defined_before before entry)
        ) }
    ensures known { OnOk result (
        (before : List entries.Entry)
        → KnowsDefined defined.old before
        → KnowsDefined defined.new (before ++ entry ∷ [])
        ) }
{
    match defined_by(entry) {
        None => Ok(true),
        Some(lit) => Ok(defined.insert(lit)?),
    }
}

/// Returns the fault of a line with this entry, by the literals that earlier lines define. If there
/// is none, adds the literal that the entry defines.
pub fn entry_fault(
    defined: &mut BTreeSet<u64>,
    counts: Counts,
    entry: Entry,
) -> Result<Option<AigFaultKind>, AllocError>
    ensures fault { IfOk result (λ fault.
        (before : List entries.Entry)
        → KnowsDefined defined.old before
        → fault ≡ entry_fault counts before (Some entry)
        ) }
    ensures known { IfOk result (λ fault.
        (before : List entries.Entry)
        → KnowsDefined defined.old before
        → fault ≡ None
        → KnowsDefined defined.new (before ++ entry ∷ [])
        ) }
{
    if has_bad_literal(counts, entry) {
        return Ok(Some(AigFaultKind::BadLiteral));
    }
    let is_fresh = define(defined, entry)?;
    if !is_fresh {
        return Ok(Some(AigFaultKind::DefinedTwice));
    }
    if has_bad_reset(entry) {
        return Ok(Some(AigFaultKind::BadReset));
    }
    Ok(None)
}

// Whether a literal is read but defined by no line.
fn is_undefined(defined: &BTreeSet<u64>, lit: u64) -> bool
    ensures { (entries : List entries.Entry) → KnowsDefined defined.now entries →
        result ≡ is_undefined entries lit }
{
    lit > 1 && !defined.contains(&(lit - lit % 2))
}

/// Returns whether an entry reads a literal that no line defines.
pub fn reads_undefined(defined: &BTreeSet<u64>, entry: Entry) -> bool
    ensures { (entries : List entries.Entry)
        → KnowsDefined defined.now entries
        → result ≡ reads_undefined entries entry }
{
    match entry {
        Entry::Input(_) => false,
        Entry::Latch(latch) => is_undefined(defined, latch.next),
        Entry::Output(lit) => is_undefined(defined, lit),
        Entry::And(gate) => { is_undefined(defined, gate.rhs0) || is_undefined(defined, gate.rhs1) }
    }
}
