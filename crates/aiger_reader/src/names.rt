// The names of inputs and outputs.
ghost use Rattle.std.specs.Prelude.{◌≡◌, ◌+◌, ◌^◌, ◌<◌, ◌≤◌, ◌++◌, List, [], not, true, Some, length, take, slice_get, option_map, IfOk, OnOk};
ghost use Rattle.lists.specs.Items.{list_at};
ghost use Rattle.lists.specs.Names.{is_among};
ghost use Rattle.aiger_text.specs.EntryFaults.{aig_fault_on};
ghost use Rattle.aiger_text.specs.Names.{letter_of, names_for, plain_name, repeated_names};
ghost use Rattle.aiger_text.specs.Symbols.{Symbol};
ghost use Rattle.aiger_text.specs.declared.fault.AigFaultKind.TheVariants.{SameName};
ghost use Rattle.aiger_reader.specs.Earlier.{KnowsEarlier, is_earlier, number_of_name};
ghost use Rattle.aiger_reader.specs.Known.{KnowsNamesOfKind};

use aiger_text::SymbolKind;
use itoa::Buffer;
use lists::{Bytes, copied};
use pattern_lines::number_in;
use std::alloc::{AllocError, Global};
use std::collections::BTreeSet;

fn letter_of(kind: SymbolKind) -> u8
    ensures { result ≡ letter_of kind }
{
    match kind {
        SymbolKind::Input => b'i',
        SymbolKind::Latch => b'l',
        SymbolKind::Output => b'o',
    }
}

// The name of a port without a symbol line.
fn plain_name(alloc: Global, kind: SymbolKind, place: usize) -> Result<Bytes, AllocError>
    ensures { IfOk result (λ name. name ≡ plain_name kind place) }
{
    let mut digits = Buffer::new();
    let mut name = Vec::new(alloc);
    name.push(letter_of(kind))?;
    name.extend_from_slice(digits.format(place).as_bytes())?;
    Ok(Bytes::of(name))
}

/// Adds the names of all inputs, latches or outputs, in order.
pub fn push_names(
    names: &mut Vec<Bytes>,
    alloc: Global,
    kind: SymbolKind,
    table: &[Option<&[u8]>],
) -> Result<(), AllocError>
    ensures long { OnOk result (length names.new.items ≡
        length names.old.items + length table.now) }
    ensures names { OnOk result (
        (symbols : List Symbol)
        → KnowsNamesOfKind kind table.now symbols
        → names.new.items ≡ names.old.items ++ names_for symbols kind (length table.now)
        ) }
{
    for place in 0..table.len() {
        let name = match table[place] {
            Some(name) => copied(alloc, name)?,
            None => plain_name(alloc, kind, place)?,
        };
        names.push(name)?;
    }
    Ok(())
}

// The number after the first byte of a name, as it stands in a plain name.
fn number_of_name(name: &[u8]) -> Option<u64>
    ensures { result ≡ number_of_name name.now }
{
    match name {
        [_, digits @ ..] => number_in(digits),
        [] => None,
    }
}

// Whether the number is that of a place.
fn is_number_at(number: Option<u64>, place: usize) -> bool
    ensures { result ≡ true → number ≡ Some place }
{
    match number {
        Some(k) => k == place as u64,
        None => false,
    }
}

// Whether this name is also the earlier name at that number.
fn is_earlier(names: &[Bytes], i: usize, name: &[u8], number: Option<u64>) -> bool
    requires { i ≤ length names.now }
    ensures { result ≡ is_earlier names.now i name.now number }
{
    let Some(k) = number else { return false };
    k < i as u64 && names[k as usize].as_slice() == name
}

// Notes a name, and returns whether it is none of those before it. Plain names are found at their
// numbers, so a text of many plain names needs no set.
fn note<'a>(seen: &mut BTreeSet<&'a [u8]>, names: &'a [Bytes], i: usize) -> Result<bool, AllocError>
    requires { i < length names.now }
    ensures fresh { IfOk result (λ fresh.
        KnowsEarlier names.now i seen.old
        → fresh ≡ not (is_among (list_at names.now i) (take i names.now))
        ) }
    ensures known { IfOk result (λ fresh.
        KnowsEarlier names.now i seen.old
        → fresh ≡ true
        → KnowsEarlier names.now (i + 1) seen.new
        ) }
{
    let name = names[i].as_slice();
    let number = number_of_name(name);
    if is_earlier(names, i, name, number) {
        return Ok(false);
    }
    if is_number_at(number, i) {
        return Ok(!seen.contains(name));
    }
    Ok(seen.insert(name)?)
}

/// Returns the line of the first name that stands among those before it. The first name is on
/// `line`, the second on the next line, and so on.
pub fn first_repeat(alloc: Global, names: &[Bytes], line: u64) -> Result<Option<u64>, AllocError>
    requires { line + length names.now < 2 ^ 64 }
    ensures { IfOk result (λ found.
        option_map (λ at. aig_fault_on at SameName) found
        ≡ slice_get (repeated_names [] line names.now) 0
        ) }
{
    let mut seen = BTreeSet::new(alloc);
    for i in 0..names.len() {
        let is_new = note(&mut seen, names, i)?;
        if !is_new {
            drop(seen);
            return Ok(Some(line + i as u64));
        }
    }
    drop(seen);
    Ok(None)
}
