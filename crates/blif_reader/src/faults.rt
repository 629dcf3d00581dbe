// The first fault of lines.
ghost use Rattle.std.specs.Prelude.{◌≡◌, ℕ, List, [], option_map, IfOk};
ghost use Rattle.std.specs.Option.{option_copied, option_or};
ghost use Rattle.blif_text.specs.declared.logical.Logical.{Logical};
ghost use Rattle.blif_text.specs.Models.{first_operand};
ghost use Rattle.netlist_rules.specs.FaultNames.{fault_on};
ghost use Rattle.blif_text.specs.LineFaults.{first_broken, line_fault, line_rules};
ghost use Rattle.blif_reader.specs.Before.{HasRead, is_cover, inputs_of_cover, differs_from_first, count_word, outside_word, bad_row_word, mixed_word, latch_word, pin_word, name_word, inside_fault, broken_fault};
ghost use Rattle.lists.specs.Names.{holds_name};

use crate::before::Before;
use crate::latches::is_latch;
use crate::pins::{first_bad_pin, pin_words};
use crate::rows::{differs_from, is_row_of};
use crate::rules::{has_bad_count, unknown_directive, unsupported};
use crate::words::{begins_model, first_operand, first_word, has_directive, is_row, operands};
use blif_text::{Fault, FaultKind, Logical};
use lists::copied;
use std::alloc::{AllocError, Global};

/// A rule that a line breaks, and the word that it names.
#[derive(Clone, Copy)]
pub struct Broken<'a> {
    pub kind: FaultKind,
    pub word: &'a [u8],
}

// Whether the last directive begins a cover.
fn is_cover(directive: Option<&Logical>) -> bool
    ensures { result ≡ is_cover (option_copied directive.entry) }
{
    match directive {
        None => false,
        Some(line) => has_directive(line, b".names"),
    }
}

// How many inputs the cover of the last directive has.
fn inputs_of_cover(directive: Option<&Logical>) -> usize
    ensures { result ≡ inputs_of_cover (option_copied directive.entry) }
{
    match directive {
        None => 0,
        Some(line) => operands(line).len().saturating_sub(1),
    }
}

fn differs_from_first(row: Option<&Logical>, line: &Logical) -> bool
    ensures { result ≡ differs_from_first (option_copied row.entry) line.now }
{
    match row {
        None => false,
        Some(first) => differs_from(line, first),
    }
}

fn count_word(line: &Logical) -> Option<&[u8]>
    ensures { option_copied result ≡ count_word line.now }
{
    if has_bad_count(line) {
        Some(first_word(line))
    } else {
        None
    }
}

fn outside_word<'a>(directive: Option<&'a Logical>, line: &'a Logical) -> Option<&'a [u8]>
    ensures { option_copied result ≡ outside_word (option_copied directive.entry) line.now }
{
    if is_row(line) && !is_cover(directive) {
        Some(first_word(line))
    } else {
        None
    }
}

fn bad_row_word<'a>(directive: Option<&'a Logical>, line: &'a Logical) -> Option<&'a [u8]>
    ensures { option_copied result ≡ bad_row_word (option_copied directive.entry) line.now }
{
    if is_row(line)
        && is_cover(directive)
        && !is_row_of(inputs_of_cover(directive), line.words.as_slice())
    {
        Some(first_word(line))
    } else {
        None
    }
}

fn mixed_word<'a>(
    directive: Option<&'a Logical>,
    row: Option<&'a Logical>,
    line: &'a Logical,
) -> Option<&'a [u8]>
    ensures { option_copied result
        ≡ mixed_word (option_copied directive.entry) (option_copied row.entry) line.now }
{
    if is_row(line) && is_cover(directive) && differs_from_first(row, line) {
        Some(first_word(line))
    } else {
        None
    }
}

fn latch_word(line: &Logical) -> Option<&[u8]>
    ensures { option_copied result ≡ latch_word line.now }
{
    if has_directive(line, b".latch") && !is_latch(operands(line)) {
        Some(first_word(line))
    } else {
        None
    }
}

fn pin_word(line: &Logical) -> Option<&[u8]>
    ensures { option_copied result ≡ pin_word line.now }
{
    if has_directive(line, b".subckt") {
        first_bad_pin(pin_words(line))
    } else {
        None
    }
}

fn name_word(is_named: bool, line: &Logical) -> Option<&[u8]>
    ensures { option_copied result ≡ name_word is_named line.now }
{
    if begins_model(line) && is_named {
        Some(first_operand(line))
    } else {
        None
    }
}

// This rule if it names a word, and otherwise the broken one of a higher number, if there is one.
fn broken_or<'a>(
    kind: FaultKind,
    word: Option<&'a [u8]>,
    later: Option<Broken<'a>>,
) -> Option<Broken<'a>>
    ensures { (line : ℕ) → option_map (broken_fault line) result ≡
        option_or (option_map (fault_on kind line) (option_copied word.entry))
        (option_map (broken_fault line) later.entry) }
{
    match word {
        None => later,
        Some(word) => Some(Broken { kind, word }),
    }
}

// The first rule that a line inside a model breaks.
fn broken_inside<'a>(before: &Before<'a>, line: &'a Logical) -> Option<Broken<'a>>
    ensures { option_map (broken_fault line.now.line) result ≡
        inside_fault (option_copied before.now.directive) (option_copied before.now.row)
        (holds_name before.now.names (first_operand line.now)) line.now }
{
    let directive = before.directive;
    let row = before.row;
    let is_named = before.names.contains(&first_operand(line));
    let broken = broken_or(FaultKind::DuplicateModel, name_word(is_named, line), None);
    let broken = broken_or(FaultKind::BadPin, pin_word(line), broken);
    let broken = broken_or(FaultKind::BadLatch, latch_word(line), broken);
    let broken = broken_or(
        FaultKind::MixedCover,
        mixed_word(directive, row, line),
        broken,
    );
    let broken = broken_or(FaultKind::BadRow, bad_row_word(directive, line), broken);
    let broken = broken_or(FaultKind::RowOutside, outside_word(directive, line), broken);
    let broken = broken_or(FaultKind::BadCount, count_word(line), broken);
    let broken = broken_or(FaultKind::Unsupported, unsupported(line), broken);
    broken_or(FaultKind::UnknownDirective, unknown_directive(line), broken)
}

// The rule of the lowest number that a line breaks, given the lines before it.
fn broken_rule<'a>(before: &Before<'a>, line: &'a Logical) -> Option<Broken<'a>>
    ensures { (lines : List Logical) → HasRead before.now lines →
        option_map (broken_fault line.now.line) result ≡ first_broken line_rules lines line.now }
{
    if begins_model(line) {
        return broken_inside(before, line);
    }
    if !before.has_model {
        return Some(Broken {
            kind: FaultKind::NoModelYet,
            word: first_word(line),
        });
    }
    if before.has_ended {
        return Some(Broken {
            kind: FaultKind::AfterEnd,
            word: first_word(line),
        });
    }
    broken_inside(before, line)
}

// The fault on a line that breaks a rule.
fn fault_of(alloc: Global, line: u64, broken: Broken<'_>) -> Result<Fault, AllocError>
    ensures { IfOk result (λ fault. fault ≡ broken_fault line broken.entry) }
{
    Ok(Fault {
        kind: broken.kind,
        line,
        word: copied(alloc, broken.word)?,
    })
}

// The first fault of some lines; `before` starts as the state of no lines.
fn first_fault<'a>(
    alloc: Global,
    before: &mut Before<'a>,
    lines: &'a [Logical],
) -> Result<Option<Fault>, AllocError>
    requires { HasRead before.old [] }
    ensures { IfOk result (λ fault. fault ≡ line_fault lines.now) }
{
    for line in lines {
        if let Some(broken) = broken_rule(before, line) {
            return Ok(Some(fault_of(alloc, line.line, broken)?));
        }
        before.push(line)?;
    }
    Ok(None)
}

/// Returns the fault of the earliest line that breaks a rule on lines, by the rule of the lowest
/// number, if a line breaks one.
pub fn line_fault(alloc: Global, lines: &[Logical]) -> Result<Option<Fault>, AllocError>
    ensures { IfOk result (λ fault. fault ≡ line_fault lines.now) }
{
    let mut before = Before::new(alloc);
    first_fault(alloc, &mut before, lines)
}
