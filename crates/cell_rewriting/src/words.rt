// Words of sources over at most six leaves. A word is the truth table of a source as a function of
// the leaves.
ghost use Rattle.std.specs.Prelude.{◌≡◌, ◌≤◌, length, true, IfOk, IfSome, OnOk, slice_get, Some};
ghost use Rattle.cell_core.specs.declared.cells.Src.TheVariants.{Cell as Made};
ghost use Rattle.cell_rewriting.specs.Substitution.{AreEqual, AreEquivalent};
ghost use Rattle.cell_rewriting.specs.Words.{IsWordOf, IsWordOfCell, AreWords};

use crate::RewriteError;
use crate::substitution::Substitution;
use cell_core::{Cell, Src, and_not_words, is_same_src, net_word, or_words, xor_words};
use std::alloc::Global;

/// A cell, by its number, and its word.
#[derive(Clone, Copy)]
pub struct CellWord {
    pub cell: u32,
    pub word: u64,
}

// Where a source stands among the leaves.
fn place_among(leaves: &[Src], src: Src) -> Option<usize>
    ensures { IfSome result (λ i. slice_get leaves.now i ≡ Some src) }
{
    for (i, leaf) in leaves.iter().enumerate() {
        if is_same_src(*leaf, src) {
            return Some(i);
        }
    }
    None
}

// The word of a cell, if the known words have it.
fn word_among(subst: &Substitution, leaves: &[Src], words: &[CellWord], number: u32) -> Option<u64>
    requires { AreWords subst.now.list leaves.now words.now }
    ensures { IfSome result (IsWordOf subst.now.list leaves.now (Made number)) }
{
    let _subst = subst;
    let _leaves = leaves;
    for known in words {
        if known.cell == number {
            return Some(known.word);
        }
    }
    None
}

// The word of a source that is not replaced.
fn standing_word(subst: &Substitution, leaves: &[Src], words: &[CellWord], src: Src) -> Option<u64>
    requires few { length leaves.now ≤ 6 }
    requires words { AreWords subst.now.list leaves.now words.now }
    ensures { IfSome result (IsWordOf subst.now.list leaves.now src) }
{
    if let Some(i) = place_among(leaves, src) {
        return Some(net_word(i));
    }
    match src {
        Src::One => Some(u64::MAX),
        Src::Zero => Some(0),
        Src::Cell(i) => word_among(subst, leaves, words, i),
        Src::Input(_) | Src::Latch(_) => None,
    }
}

// The word of a source, by that of the source that is read in its place.
fn source_word(subst: &Substitution, leaves: &[Src], words: &[CellWord], src: Src) -> Option<u64>
    requires equal { AreEqual subst.now.list subst.now.instead.items }
    requires few { length leaves.now ≤ 6 }
    requires words { AreWords subst.now.list leaves.now words.now }
    ensures { IfSome result (IsWordOf subst.now.list leaves.now src) }
{
    standing_word(subst, leaves, words, subst.standing(src))
}

// The words of two sources.
fn source_words(
    subst: &Substitution,
    leaves: &[Src],
    words: &[CellWord],
    a: Src,
    b: Src,
) -> Option<(u64, u64)>
    requires equal { AreEqual subst.now.list subst.now.instead.items }
    requires few { length leaves.now ≤ 6 }
    requires words { AreWords subst.now.list leaves.now words.now }
    ensures first { IfSome result (λ both. IsWordOf subst.now.list leaves.now a both.0) }
    ensures second { IfSome result (λ both. IsWordOf subst.now.list leaves.now b both.1) }
{
    Some((
        source_word(subst, leaves, words, a)?,
        source_word(subst, leaves, words, b)?,
    ))
}

// The word of what a cell makes.
fn cell_word(subst: &Substitution, leaves: &[Src], words: &[CellWord], cell: Cell) -> Option<u64>
    requires equal { AreEqual subst.now.list subst.now.instead.items }
    requires few { length leaves.now ≤ 6 }
    requires words { AreWords subst.now.list leaves.now words.now }
    ensures { IfSome result (IsWordOfCell subst.now.list leaves.now cell) }
{
    match cell {
        Cell::Or(a, b) => {
            let (first, second) = source_words(subst, leaves, words, a, b)?;
            Some(or_words(first, second))
        }
        Cell::Xor(a, b) => {
            let (first, second) = source_words(subst, leaves, words, a, b)?;
            Some(xor_words(first, second))
        }
        Cell::AndNot(a, b) => {
            let (first, second) = source_words(subst, leaves, words, a, b)?;
            Some(and_not_words(first, second))
        }
    }
}

// Adds the word of a cell, if those of its operands are known.
fn add_word(
    words: &mut Vec<CellWord>,
    subst: &Substitution,
    leaves: &[Src],
    number: u32,
) -> Result<(), RewriteError>
    requires equal { AreEqual subst.now.list subst.now.instead.items }
    requires few { length leaves.now ≤ 6 }
    requires words { AreWords subst.now.list leaves.now words.old.items }
    ensures { OnOk result (AreWords subst.now.list leaves.now words.new.items) }
{
    let Some(cell) = subst.cell_at(number) else {
        return Ok(());
    };
    if let Some(word) = cell_word(subst, leaves, words, cell) {
        words.push(CellWord { cell: number, word })?;
    }
    Ok(())
}

// The words of the cells of a cone, in which each cell stands after those that it reads.
fn cone_words(
    alloc: Global,
    subst: &Substitution,
    leaves: &[Src],
    cone: &[u32],
) -> Result<Vec<CellWord>, RewriteError>
    requires equal { AreEqual subst.now.list subst.now.instead.items }
    requires few { length leaves.now ≤ 6 }
    ensures { IfOk result (λ words. AreWords subst.now.list leaves.now words.items) }
{
    let mut words = Vec::with_capacity(alloc, cone.len())?;
    for number in cone {
        add_word(&mut words, subst, leaves, *number)?;
    }
    Ok(words)
}

/// Returns whether two sources have equal words over the leaves, and so always the same bit.
/// `false` is also the answer if there are more than six leaves or one of the words is not known.
pub fn have_one_word(
    alloc: Global,
    subst: &Substitution,
    leaves: &[Src],
    cone: &[u32],
    a: Src,
    b: Src,
) -> Result<bool, RewriteError>
    requires { AreEqual subst.now.list subst.now.instead.items }
    ensures { IfOk result (λ yes. yes ≡ true → AreEquivalent subst.now.list a b) }
{
    if leaves.len() > 6 {
        return Ok(false);
    }
    let words = cone_words(alloc, subst, leaves, cone)?;
    let Some((first, second)) = source_words(subst, leaves, &words, a, b) else {
        return Ok(false);
    };
    Ok(first == second)
}
