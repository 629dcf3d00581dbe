// The reading of a text.
ghost use Rattle.std.specs.Prelude.{ℕ, ◌≡◌, ◌+◌, ◌^◌, ◌<◌, ◌≤◌, ◌++◌, [], List, Some, length, filter_map, slice_get, option_map, IfOk, IfErr, OnOk};
ghost use Rattle.std.specs.Result.{IsErrOf, IsOkUnless};
ghost use Rattle.aiger_text.specs.declared.aig.Aig.{Aig};
ghost use Rattle.aiger_text.specs.declared.fault.AigFault.{AigFault};
ghost use Rattle.aiger_text.specs.AigText.{HasAigFault, ReadsAsAig, aig_with, first_bytes, later_faults, later_lines};
ghost use Rattle.aiger_text.specs.Entries.{and_of, literal_of_input, latch_of, literal_of_output};
ghost use Rattle.aiger_text.specs.EntryFaults.{aig_fault_on};
ghost use Rattle.aiger_text.specs.Names.{name_faults, names_for};
ghost use Rattle.aiger_text.specs.Symbols.{Symbol};
ghost use Rattle.aiger_text.specs.declared.fault.AigFaultKind.TheVariants.{Undefined};
ghost use Rattle.aiger_text.specs.declared.section.SymbolKind.TheVariants.{Input, Output};
ghost use Rattle.aiger_reader.specs.Known.{KnowsDefined, KnowsSymbols};
ghost use Rattle.aiger_reader.specs.Read.{IsFirstOf, IsReadOf, lines_after, undefined_at};
ghost use Rattle.aiger_reader.specs.declared.error.AigReadError.TheVariants.{Fault, NoMemory};

use crate::check::reads_undefined;
use crate::error::AigReadError;
use crate::header::{counts_in, header_fault};
use crate::names::{first_repeat, push_names};
use crate::parts::{ands_of, inputs_of, latches_of, outputs_of};
use crate::sections::{Sections, read_sections};
use crate::symbols::{NameTables, read_symbols};
use aiger_text::{Aig, AigFault, AigFaultKind, Counts, Entry, SymbolKind};
use lists::{Bytes, List};
use pattern_lines::split_line;
use std::alloc::{AllocError, Global};
use std::collections::BTreeSet;

// The bytes of line 1 and the text after it; both are empty if there is no line.
fn split_header(text: &[u8]) -> (&[u8], &[u8])
    ensures header { result.0.now ≡ first_bytes text.now }
    ensures rest { later_lines text.now ≡ lines_after 1 result.1.now }
    ensures shorter { length result.1.now ≤ length text.now }
{
    if text.is_empty() {
        return (text, text);
    }
    let (line, rest) = split_line(0, text);
    (line.bytes, rest)
}

// The line of the first entry that reads a literal which no entry defines.
fn first_undefined(entries: &[Entry], defined: &BTreeSet<u64>) -> Option<u64>
    requires few { 2 + length entries.now < 2 ^ 64 }
    requires known { KnowsDefined defined.now entries.now }
    ensures { option_map (λ line. aig_fault_on line Undefined) result
        ≡ slice_get (undefined_at entries.now 2 entries.now) 0 }
{
    for (i, entry) in entries.iter().enumerate() {
        if reads_undefined(defined, *entry) {
            return Some(2 + i as u64);
        }
    }
    None
}

// Adds the names of the inputs and then those of the outputs, if no two inputs and no two outputs
// share one.
fn push_port_names(
    names: &mut Vec<Bytes>,
    alloc: Global,
    counts: Counts,
    tables: &NameTables<'_>,
) -> Result<(), AigReadError>
    requires few { 2 + counts.inputs + counts.latches + counts.outputs < 2 ^ 64 }
    requires empty { names.old.items ≡ [] }
    requires known { (symbols : List Symbol) × KnowsSymbols counts tables.now symbols }
    ensures names { OnOk result (
        (symbols : List Symbol)
        → KnowsSymbols counts tables.now symbols
        → names.new.items
        ≡ names_for symbols Input counts.inputs ++ names_for symbols Output counts.outputs
        ) }
    ensures apart { OnOk result (
        (symbols : List Symbol)
        → KnowsSymbols counts tables.now symbols
        → name_faults counts symbols ≡ []
        ) }
    ensures refused { IfErr result (λ e.
        (symbols : List Symbol)
        → KnowsSymbols counts tables.now symbols
        → IsFirstOf (name_faults counts symbols) e
        ) }
{
    push_names(names, alloc, SymbolKind::Input, &tables.inputs)?;
    if let Some(line) = first_repeat(alloc, names, 2)? {
        return Err(AigReadError::Fault(AigFault {
            kind: AigFaultKind::SameName,
            line,
        }));
    }
    let inputs = names.len();
    push_names(names, alloc, SymbolKind::Output, &tables.outputs)?;
    if let Some(line) = first_repeat(alloc, &names[inputs..], 2 + counts.inputs + counts.latches)? {
        return Err(AigReadError::Fault(AigFault {
            kind: AigFaultKind::SameName,
            line,
        }));
    }
    Ok(())
}

// The names of the inputs and then those of the outputs, if no two inputs and no two outputs share
// one.
fn port_names(
    alloc: Global,
    counts: Counts,
    tables: &NameTables<'_>,
) -> Result<Vec<Bytes>, AigReadError>
    requires few { 2 + counts.inputs + counts.latches + counts.outputs < 2 ^ 64 }
    requires known { (symbols : List Symbol) × KnowsSymbols counts tables.now symbols }
    ensures names { IfOk result (λ names. (symbols : List Symbol) →
        KnowsSymbols counts tables.now symbols →
        names.items ≡ names_for symbols Input counts.inputs ++
        names_for symbols Output counts.outputs) }
    ensures apart { IfOk result (λ names.
        (symbols : List Symbol)
        → KnowsSymbols counts tables.now symbols
        → name_faults counts symbols ≡ []
        ) }
    ensures refused { IfErr result (λ e.
        (symbols : List Symbol)
        → KnowsSymbols counts tables.now symbols
        → IsFirstOf (name_faults counts symbols) e
        ) }
{
    let mut names = Vec::with_capacity(alloc, (counts.inputs + counts.outputs) as usize)?;
    push_port_names(&mut names, alloc, counts, tables)?;
    Ok(names)
}

// The circuit that entries and names make.
fn aig_of(alloc: Global, m: u64, entries: &[Entry], names: Vec<Bytes>) -> Result<Aig, AllocError>
    ensures { IfOk result (λ aig. aig ≡ record {
      m = m;
      inputs = filter_map literal_of_input entries.now;
      latches = filter_map latch_of entries.now;
      outputs = filter_map literal_of_output entries.now;
      ands = filter_map and_of entries.now;
      names = names.items;
    }) }
{
    Ok(Aig {
        m,
        inputs: List::of(inputs_of(alloc, entries)?),
        latches: List::of(latches_of(alloc, entries)?),
        outputs: List::of(outputs_of(alloc, entries)?),
        ands: List::of(ands_of(alloc, entries)?),
        names: List::of(names),
    })
}

// The circuit that the lines of the sections and the symbols make.
fn aig_in(
    alloc: Global,
    counts: Counts,
    sections: &Sections<'_>,
    tables: &NameTables<'_>,
) -> Result<Aig, AigReadError>
    requires { (text : List ℕ) × IsReadOf counts text sections.now tables.now }
    ensures aig { IfOk result (λ aig. (text : List ℕ) → IsReadOf counts text sections.now tables.now
        → aig ≡ aig_with counts (lines_after 1 text)) }
    ensures no_fault { OnOk result (
        (text : List ℕ)
        → IsReadOf counts text sections.now tables.now
        → later_faults counts (lines_after 1 text) ≡ []
        ) }
    ensures refused { IfErr result (λ e.
        (text : List ℕ)
        → IsReadOf counts text sections.now tables.now
        → IsFirstOf (later_faults counts (lines_after 1 text)) e
        ) }
{
    if let Some(line) = first_undefined(&sections.entries, &sections.defined) {
        return Err(AigReadError::Fault(AigFault {
            kind: AigFaultKind::Undefined,
            line,
        }));
    }
    let names = port_names(alloc, counts, tables)?;
    Ok(aig_of(alloc, counts.m, &sections.entries, names)?)
}

// The circuit of the lines after a header with these counts.
fn read_later(alloc: Global, counts: Counts, text: &[u8]) -> Result<Aig, AigReadError>
    requires { 2 + length text.now < 2 ^ 64 }
    ensures aig { IfOk result (λ aig. aig ≡ aig_with counts (lines_after 1 text.now)) }
    ensures no_fault { OnOk result (later_faults counts (lines_after 1 text.now) ≡ []) }
    ensures refused { IfErr result (IsFirstOf (later_faults counts (lines_after 1 text.now))) }
{
    let sections = read_sections(alloc, counts, text)?;
    let tables = read_symbols(alloc, counts, sections.lines, sections.rest)?;
    aig_in(alloc, counts, &sections, &tables)
}

/// Reads an AIGER text in ASCII, whose lines end with byte 10, or with bytes 13 and 10. A header
/// `aag M I L O A` comes first; then a line `lit` for each input, `lit next` or `lit next reset`
/// for each latch, `lit` for each output and `lhs rhs0 rhs1` for each AND gate; then lines
/// `i<n> name`, `l<n> name` and `o<n> name`, up to a line that begins with `c`. Numbers are decimal
/// and parted by single spaces, and a name is all that follows the first space. Inputs and outputs
/// without a name are called `i<n>` and `o<n>`.
///
/// `Fault` has the first fault of the text.
pub fn read(alloc: Global, text: &[u8]) -> Result<Aig, AigReadError>
    ensures aig { IfOk result (ReadsAsAig text.now) }
    ensures reads { (aig : Aig) → ReadsAsAig text.now aig → IsOkUnless result NoMemory }
    ensures fault { (fault : AigFault) → IsErrOf result (Fault fault) → HasAigFault text.now fault }
{
    let (header, later) = split_header(text);
    match counts_in(alloc, header)? {
        None => Err(AigReadError::Fault(AigFault {
            kind: header_fault(header),
            line: 1,
        })),
        Some(counts) => read_later(alloc, counts, later),
    }
}
