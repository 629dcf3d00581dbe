// Rewrites a list into lists with fewer cells.
ghost use Rattle.std.specs.Prelude.{◌≡◌, ◌≤◌, true, length, All, IfOk, IfSome, OnOk};
ghost use Rattle.cell_rewriting.specs.Lists.{IsRewrittenFrom};
ghost use Rattle.cell_meaning.specs.Same.{Keeps, Rewrites, IsNoLarger, IsRewritten};
ghost use Rattle.cell_rewriting.specs.Substitution.{AreEqual, Extends};

use crate::RewriteError;
use crate::copying::copied;
use crate::rebuilding::{KeptList, rebuilt};
use crate::substitution::Substitution;
use cell_core::{CellList, Draws, Src};
use resubstitution::{Replacement, Round, replacements};
use std::alloc::Global;
use std::mem;

// The greatest number of rounds that are to make cells fewer.
const ROUNDS: u32 = 6;

// Whether the new list has no more cells, and names constant 1 only if the old one does.
fn is_no_larger(list: &CellList, new: &CellList) -> bool
    ensures { result ≡ true → IsNoLarger list.now new.now }
{
    if new.cells.len() > list.cells.len() {
        return false;
    }
    list.names_one() || !new.names_one()
}

// The list with the cells that the replacements add, and what is read in place of its cells.
fn substituted(
    alloc: Global,
    list: &CellList,
    all: &[Replacement],
) -> Result<Substitution, RewriteError>
    ensures equal { IfOk result (λ s. AreEqual s.list s.instead.items) }
    ensures extends { IfOk result (λ s. Extends list.now s.list) }
{
    let mut subst = Substitution::begin(alloc, list)?;
    match subst.replace_all(alloc, all) {
        Ok(()) => Ok(subst),
        Err(error) => {
            drop(subst);
            Err(error)
        }
    }
}

// The list after the replacements, if it can be put in order and the kept sources stay the cells
// that they are.
fn replaced(
    alloc: Global,
    now: &KeptList,
    all: &[Replacement],
) -> Result<Option<KeptList>, RewriteError>
    ensures { IfOk result (λ o. IfSome o (λ n. Keeps now.now.list now.now.kept.items n.list
        n.kept.items)) }
{
    let subst = substituted(alloc, &now.list, all)?;
    let new = rebuilt(alloc, &subst, &now.kept);
    drop(subst);
    new
}

// The new list, if it is no larger.
fn if_no_larger(now: &KeptList, new: KeptList) -> Option<KeptList>
    requires { Keeps now.now.list now.now.kept.items new.list new.kept.items }
    ensures { IfSome result (λ n. IsRewritten now.now.list now.now.kept.items n.list n.kept.items) }
{
    if is_no_larger(&now.list, &new.list) {
        Some(new)
    } else {
        drop(new);
        None
    }
}

// The list after these replacements, if there are any and it is no larger.
fn next_by(
    alloc: Global,
    now: &KeptList,
    all: &[Replacement],
) -> Result<Option<KeptList>, RewriteError>
    ensures { IfOk result (λ o. IfSome o (λ n. IsRewritten now.now.list now.now.kept.items n.list
        n.kept.items)) }
{
    if all.is_empty() {
        return Ok(None);
    }
    match replaced(alloc, now, all)? {
        Some(new) => Ok(if_no_larger(now, new)),
        None => Ok(None),
    }
}

// The list after a round, if there are replacements.
fn next_list(
    alloc: Global,
    now: &KeptList,
    round: Round,
    draws: &mut Draws,
) -> Result<Option<KeptList>, RewriteError>
    ensures { IfOk result (λ o. IfSome o (λ n. IsRewritten now.now.list now.now.kept.items n.list
        n.kept.items)) }
{
    let all = replacements(alloc, &now.list, &now.kept, round, draws)?;
    let next = next_by(alloc, now, &all);
    drop(all);
    next
}

// A copy of a list and of its kept sources.
fn begun(alloc: Global, list: &CellList, kept: &[Src]) -> Result<KeptList, RewriteError>
    ensures { IfOk result (λ n. IsRewritten list.now kept.now n.list n.kept.items) }
{
    let still = kept.to_vec(alloc)?;
    Ok(KeptList {
        list: copied(alloc, list)?,
        kept: still,
    })
}

// Whether the new list has fewer cells, and names constant 1 only if the old one does.
fn is_smaller(list: &CellList, new: &CellList) -> bool
    ensures { result ≡ true → IsNoLarger list.now new.now }
{
    new.cells.len() < list.cells.len() && is_no_larger(list, new)
}

// The new list if it is smaller, and else the old one.
#[tactic(auto, using(crate::proofs::Keeping::itself_rewritten))]
fn smaller_of(now: KeptList, new: KeptList) -> KeptList
    requires { Keeps now.list now.kept.items new.list new.kept.items }
    ensures { IsRewritten now.list now.kept.items result.list result.kept.items }
{
    if is_smaller(&now.list, &new.list) {
        drop(now);
        new
    } else {
        drop(new);
        now
    }
}

// A copy of a list and of its kept sources, without the cells that nothing reads.
fn swept(alloc: Global, list: &CellList, kept: &[Src]) -> Result<KeptList, RewriteError>
    ensures { IfOk result (λ n. IsRewritten list.now kept.now n.list n.kept.items) }
{
    let now = begun(alloc, list, kept)?;
    match replaced(alloc, &now, &[]) {
        Ok(Some(new)) => Ok(smaller_of(now, new)),
        Ok(None) => Ok(now),
        Err(error) => {
            drop(now);
            Err(error)
        }
    }
}

// Takes the list after a round, if there is one, and answers whether there is.
#[tactic(auto, using(crate::proofs::Keeping::itself_rewritten))]
fn turn(
    alloc: Global,
    now: &mut KeptList,
    round: Round,
    draws: &mut Draws,
) -> Result<bool, RewriteError>
    ensures { OnOk result (
        IsRewritten now.old.list now.old.kept.items now.new.list now.new.kept.items
        ) }
{
    match next_list(alloc, now, round, draws)? {
        Some(next) => {
            drop(mem::replace(now, next));
            Ok(true)
        }
        None => Ok(false),
    }
}

// Does rounds in which cells become fewer, as long as they do.
fn reduce(alloc: Global, now: &mut KeptList) -> Result<(), RewriteError>
    ensures { OnOk result (
        IsRewritten now.old.list now.old.kept.items now.new.list now.new.kept.items
        ) }
{
    let mut draws = Draws::new(0);
    for _ in 0..ROUNDS {
        if !turn(alloc, now, Round::Fewer, &mut draws)? {
            return Ok(());
        }
    }
    Ok(())
}

// The list after rounds in which cells become fewer.
fn reduced(alloc: Global, list: &CellList, kept: &[Src]) -> Result<KeptList, RewriteError>
    ensures { IfOk result (λ n. IsRewritten list.now kept.now n.list n.kept.items) }
{
    let mut now = swept(alloc, list, kept)?;
    match reduce(alloc, &mut now) {
        Ok(()) => Ok(now),
        Err(error) => {
            drop(now);
            Err(error)
        }
    }
}

// Every other round makes changes by chance.
fn round_at(turn: u32) -> Round {
    if turn % 2 == 0 {
        Round::Wander
    } else {
        Round::Fewer
    }
}

// Does rounds, every other one of which makes changes by chance.
fn wander(alloc: Global, now: &mut KeptList, start: u64, rounds: u32) -> Result<(), RewriteError>
    ensures { OnOk result (
        IsRewritten now.old.list now.old.kept.items now.new.list now.new.kept.items
        ) }
{
    let mut draws = Draws::new(start);
    for at in 0..rounds {
        turn(alloc, now, round_at(at), &mut draws)?;
    }
    Ok(())
}

// The list after rounds by chance.
fn wandered(
    alloc: Global,
    from: &KeptList,
    start: u64,
    rounds: u32,
) -> Result<KeptList, RewriteError>
    ensures { IfOk result (λ n. IsRewritten from.now.list from.now.kept.items n.list n.kept.items) }
{
    let mut now = begun(alloc, &from.list, &from.kept)?;
    match wander(alloc, &mut now, start, rounds) {
        Ok(()) => Ok(now),
        Err(error) => {
            drop(now);
            Err(error)
        }
    }
}

// Adds a list that rounds by chance make of another one.
fn add_wandered(
    lists: &mut Vec<CellList>,
    alloc: Global,
    from: &KeptList,
    start: u64,
    rounds: u32,
) -> Result<(), RewriteError>
    requires { All (IsRewrittenFrom from.now) lists.old.items }
    ensures { OnOk result (All (IsRewrittenFrom from.now) lists.new.items) }
{
    let more = wandered(alloc, from, start, rounds)?;
    lists.push(more.list)?;
    Ok(())
}

// How many lists are made by chance, and in how many rounds each: the longer the list, the fewer.
fn how_many(cells: usize) -> (u64, u32) {
    match cells {
        0..=200 => (7, 20),
        201..=1500 => (1, 10),
        _ => (1, 4),
    }
}

// Adds the lists that are made of another one by chance.
fn add_all_wandered(
    lists: &mut Vec<CellList>,
    alloc: Global,
    from: &KeptList,
) -> Result<(), RewriteError>
    requires { All (IsRewrittenFrom from.now) lists.old.items }
    ensures { OnOk result (All (IsRewrittenFrom from.now) lists.new.items) }
{
    let (others, rounds) = how_many(from.list.cells.len());
    for start in 0..others {
        add_wandered(lists, alloc, from, start, rounds)?;
    }
    Ok(())
}

/// Rewrites `list` into one or more lists that compute the same with no more cells. `kept` are the
/// sources of `list` that stay the cells that they are. Each list is found with other random
/// choices, and the last one with none.
pub fn rewritten(
    alloc: Global,
    list: &CellList,
    kept: &[Src],
) -> Result<Vec<CellList>, RewriteError>
    ensures some { IfOk result (λ lists. 1 ≤ length lists.items) }
    ensures same { IfOk result (λ lists. All (Rewrites list.now kept.now) lists.items) }
{
    let first = reduced(alloc, list, kept)?;
    let mut lists = Vec::new(alloc);
    let Ok(()) = add_all_wandered(&mut lists, alloc, &first) else {
        drop(first);
        drop(lists);
        return Err(RewriteError::NoMemory);
    };
    lists.push(first.list)?;
    Ok(lists)
}
