// The list in which sources are read in place of cells, without the cells that nothing reads then.
ghost use Rattle.std.specs.Prelude.{IfOk, IfSome};
ghost use Rattle.cell_meaning.specs.Same.{Keeps};
ghost use Rattle.cell_meaning.specs.Moved.{AreMoved, IsRebuilt};
ghost use Rattle.cell_rewriting.specs.Substitution.{AreEqual};

use crate::RewriteError;
use crate::moving::{Moved, new_sources, stay_cells};
use crate::ordering::order_of;
use crate::substitution::Substitution;
use cell_core::{Cell, CellList, Src};
use lists::List;
use std::alloc::Global;

/// A list, and the sources in it that stay the cells that they are.
#[derive(Drop)]
pub struct KeptList {
    pub list: CellList,
    pub kept: Vec<Src>,
}

// The list of the cells that have moved, if all that its outputs, latches and nets read have moved.
fn list_of(
    alloc: Global,
    list: &CellList,
    cells: Vec<Cell>,
    news: &[Option<Src>],
) -> Result<Option<CellList>, RewriteError>
    requires { AreMoved list.now cells.items news.now }
    ensures { IfOk result (λ o. IfSome o (IsRebuilt list.now news.now)) }
{
    let Some(outs) = new_sources(alloc, news, list.outs.as_slice())? else {
        return Ok(None);
    };
    let Some(latches) = new_sources(alloc, news, list.latches.as_slice())? else {
        return Ok(None);
    };
    let Some(nets) = new_sources(alloc, news, list.nets.as_slice())? else {
        return Ok(None);
    };
    let starts = list.starts.as_slice().to_vec(alloc)?;
    Ok(Some(CellList {
        inputs: list.inputs,
        cells: List::of(cells),
        outs: List::of(outs),
        latches: List::of(latches),
        starts: List::of(starts),
        nets: List::of(nets),
    }))
}

// The kept sources in the new list, if each has stayed the cell that it is.
fn still_kept(
    alloc: Global,
    list: &CellList,
    kept: &[Src],
    new: &CellList,
    news: &[Option<Src>],
) -> Result<Option<Vec<Src>>, RewriteError>
    requires { IsRebuilt list.now news.now new.now }
    ensures { IfOk result (λ o. IfSome o (λ still. Keeps list.now kept.now new.now still.items)) }
{
    if !stay_cells(list, new, news, kept) {
        return Ok(None);
    }
    new_sources(alloc, news, kept)
}

// The new list with its kept sources, if each has stayed the cell that it is.
fn with_kept(
    alloc: Global,
    list: &CellList,
    kept: &[Src],
    new: CellList,
    news: &[Option<Src>],
) -> Result<Option<KeptList>, RewriteError>
    requires { IsRebuilt list.now news.now new }
    ensures { IfOk result (λ o. IfSome o (λ n. Keeps list.now kept.now n.list n.kept.items)) }
{
    match still_kept(alloc, list, kept, &new, news) {
        Ok(Some(kept)) => Ok(Some(KeptList { list: new, kept })),
        Ok(None) => {
            drop(new);
            Ok(None)
        }
        Err(error) => {
            drop(new);
            Err(error)
        }
    }
}

// The cells of a list that is to be rebuilt, moved one after another.
fn moved_by(alloc: Global, subst: &Substitution) -> Result<Moved, RewriteError>
    requires { AreEqual subst.now.list subst.now.instead.items }
    ensures { IfOk result (λ m. AreMoved subst.now.list m.cells.items m.news.items) }
{
    let order = order_of(alloc, subst)?;
    let mut moved = Moved::begin(alloc, &subst.list)?;
    match moved.add_all(subst, &order) {
        Ok(()) => Ok(moved),
        Err(error) => {
            drop(moved);
            Err(error)
        }
    }
}

/// Returns the list after all replacements, if it can be put in order and the kept sources stay the
/// cells that they are.
pub fn rebuilt(
    alloc: Global,
    subst: &Substitution,
    kept: &[Src],
) -> Result<Option<KeptList>, RewriteError>
    requires { AreEqual subst.now.list subst.now.instead.items }
    ensures { IfOk result (λ o. IfSome o (λ n. Keeps subst.now.list kept.now n.list n.kept.items)) }
{
    let Moved { cells, news } = moved_by(alloc, subst)?;
    match list_of(alloc, &subst.list, cells, &news)? {
        Some(new) => with_kept(alloc, &subst.list, kept, new, &news),
        None => Ok(None),
    }
}
