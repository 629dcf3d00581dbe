// What the lines of the sections say.
ghost use Rattle.std.specs.Prelude.{◌≡◌, ◌∷◌, [], map, IfOk};
ghost use Rattle.aiger_text.specs.Entries.{and_of_fields, entry_in, entry_of_fields, latch_of_fields, lit_of_fields, section_at};

use crate::fields::first_fields;
use aiger_text::{AigAnd, AigLatch, Counts, Entry, Section};
use pattern_lines::number_in;
use std::alloc::{AllocError, Global};

/// Returns the section of a line, by its position among the lines of the sections, from 0.
pub fn section_at(counts: Counts, position: u64) -> Section
    ensures { result ≡ section_at counts position }
{
    let position = u128::from(position);
    let latches = u128::from(counts.inputs) + u128::from(counts.latches);
    let outputs = latches + u128::from(counts.outputs);
    if position < u128::from(counts.inputs) {
        Section::Inputs
    } else if position < latches {
        Section::Latches
    } else if position < outputs {
        Section::Outputs
    } else {
        Section::Ands
    }
}

// The literal of a line `lit`.
fn lit_of_fields(fields: &[&[u8]]) -> Option<u64>
    ensures { result ≡ lit_of_fields (map (λ f. f.now) fields.now) }
{
    match *fields {
        [lit] => number_in(lit),
        _ => None,
    }
}

// The latch of three fields.
fn latch_from(lit: &[u8], next: &[u8], reset: &[u8]) -> Option<AigLatch>
    ensures { result ≡ latch_of_fields (lit.now ∷ next.now ∷ reset.now ∷ []) }
{
    Some(AigLatch {
        lit: number_in(lit)?,
        next: number_in(next)?,
        reset: number_in(reset)?,
    })
}

// The latch of a line; a reset that is left out is 0.
#[tactic(auto, using(crate::proofs::Forms::no_reset))]
fn latch_of_fields(fields: &[&[u8]]) -> Option<AigLatch>
    ensures { result ≡ latch_of_fields (map (λ f. f.now) fields.now) }
{
    match *fields {
        [lit, next] => latch_from(lit, next, b"0"),
        [lit, next, reset] => latch_from(lit, next, reset),
        _ => None,
    }
}

// The AND gate of three fields.
fn gate_from(lhs: &[u8], rhs0: &[u8], rhs1: &[u8]) -> Option<AigAnd>
    ensures { result ≡ and_of_fields (lhs.now ∷ rhs0.now ∷ rhs1.now ∷ []) }
{
    Some(AigAnd {
        lhs: number_in(lhs)?,
        rhs0: number_in(rhs0)?,
        rhs1: number_in(rhs1)?,
    })
}

// The AND gate of a line.
fn and_of_fields(fields: &[&[u8]]) -> Option<AigAnd>
    ensures { result ≡ and_of_fields (map (λ f. f.now) fields.now) }
{
    match *fields {
        [lhs, rhs0, rhs1] => gate_from(lhs, rhs0, rhs1),
        _ => None,
    }
}

// What fields say in a section.
fn entry_of_fields(section: Section, fields: &[&[u8]]) -> Option<Entry>
    ensures { result ≡ entry_of_fields section (map (λ f. f.now) fields.now) }
{
    match section {
        Section::Inputs => Some(Entry::Input(lit_of_fields(fields)?)),
        Section::Latches => Some(Entry::Latch(latch_of_fields(fields)?)),
        Section::Outputs => Some(Entry::Output(lit_of_fields(fields)?)),
        Section::Ands => Some(Entry::And(and_of_fields(fields)?)),
    }
}

/// Returns what a line says in a section, if it has the section's form.
pub fn entry_in(alloc: Global, section: Section, bytes: &[u8]) -> Result<Option<Entry>, AllocError>
    ensures { IfOk result (λ entry. entry ≡ entry_in section bytes.now) }
{
    let fields = first_fields(alloc, bytes)?;
    Ok(entry_of_fields(section, &fields))
}
