// Cells that move to other places, one after another.
ghost use Rattle.std.specs.Prelude.{◌≡◌, map, slice_get, get_or, None, IfOk, IfSome, OnOk, Some, true, Contains};
ghost use Rattle.cell_core.specs.declared.cells.Src.TheVariants.{Cell as Made};
ghost use Rattle.cell_meaning.specs.Moved.{new_source, new_cell, goes_to, AreMoved};
ghost use Rattle.cell_rewriting.specs.Substitution.{AreEqual};
ghost use Rattle.cell_meaning.specs.Same.{StaysCell};

use crate::RewriteError;
use crate::substitution::Substitution;
use cell_core::{Cell, CellList, Src, is_same_cell};
use std::alloc::Global;

// The new source of a source, if it has one.
fn new_source(news: &[Option<Src>], src: Src) -> Option<Src>
    ensures { result ≡ new_source news.now src }
{
    match src {
        Src::Cell(i) => match news.get(i as usize) {
            Some(Some(new)) => Some(*new),
            _ => None,
        },
        Src::Input(_) | Src::Latch(_) | Src::One | Src::Zero => Some(src),
    }
}

// The cell that reads the new sources of a cell's own, if each has one.
fn new_cell(news: &[Option<Src>], cell: Cell) -> Option<Cell>
    ensures { result ≡ new_cell news.now cell }
{
    match cell {
        Cell::Or(a, b) => Some(Cell::Or(new_source(news, a)?, new_source(news, b)?)),
        Cell::Xor(a, b) => Some(Cell::Xor(new_source(news, a)?, new_source(news, b)?)),
        Cell::AndNot(a, b) => Some(Cell::AndNot(new_source(news, a)?, new_source(news, b)?)),
    }
}

// The cell of a number, if a list has one.
fn cell_at(list: &CellList, number: u32) -> Option<Cell>
    ensures { result ≡ slice_get list.now.cells number }
{
    list.cells.as_slice().get(number as usize).copied()
}

// Whether a cell of the old list is that cell of the new list too.
fn stays_cell(old: &CellList, new: &CellList, news: &[Option<Src>], number: u32) -> bool
    ensures { result ≡ true → StaysCell old.now new.now (goes_to news.now) (Made number) }
{
    let Some(cell) = cell_at(old, number) else {
        return false;
    };
    let Some(wanted) = new_cell(news, cell) else {
        return false;
    };
    let Some(Src::Cell(k)) = new_source(news, Src::Cell(number)) else {
        return false;
    };
    let Some(found) = cell_at(new, k) else {
        return false;
    };
    is_same_cell(found, wanted)
}

// Whether a source, if it is a cell, stays that cell.
fn stays(old: &CellList, new: &CellList, news: &[Option<Src>], src: Src) -> bool
    ensures { result ≡ true → StaysCell old.now new.now (goes_to news.now) src }
{
    match src {
        Src::Cell(number) => stays_cell(old, new, news, number),
        Src::Input(_) | Src::Latch(_) | Src::One | Src::Zero => true,
    }
}

/// Returns whether each of `sources` that is a cell stays the cell that it is.
pub fn stay_cells(old: &CellList, new: &CellList, news: &[Option<Src>], sources: &[Src]) -> bool
    ensures { result ≡ true
        → (src : Src)
        → Contains sources.now src
        → StaysCell old.now new.now (goes_to news.now) src }
{
    for src in sources {
        if !stays(old, new, news, *src) {
            return false;
        }
    }
    true
}

/// Returns the new sources of `sources`, or `None` if one of them has no new source.
pub fn new_sources(
    alloc: Global,
    news: &[Option<Src>],
    sources: &[Src],
) -> Result<Option<Vec<Src>>, RewriteError>
    ensures { IfOk result (λ o. IfSome o (λ found. map (new_source news.now) sources.now ≡
        map Some found.items)) }
{
    let mut found = Vec::with_capacity(alloc, sources.len())?;
    for src in sources {
        match new_source(news, *src) {
            Some(new) => found.push(new)?,
            None => return Ok(None),
        }
    }
    Ok(Some(found))
}

/// The cells that have moved, and for each cell of the old list its new source, if it has one.
#[derive(Drop)]
pub struct Moved {
    pub cells: Vec<Cell>,
    pub news: Vec<Option<Src>>,
}

impl Moved {
    /// Begins with no cell moved.
    pub fn begin(alloc: Global, list: &CellList) -> Result<Moved, RewriteError>
        ensures { IfOk result (λ m. AreMoved list.now m.cells.items m.news.items) }
    {
        let many = list.cells.len();
        let news = vec![in alloc; None; many]?;
        Ok(Moved {
            cells: Vec::with_capacity(alloc, many)?,
            news,
        })
    }

    // A replaced cell goes where the source goes that is read in its place.
    fn follow(&mut self, subst: &Substitution, number: u32, by: Src)
        requires are { AreMoved subst.now.list self.old.cells.items self.old.news.items }
        requires equal { AreEqual subst.now.list subst.now.instead.items }
        requires by { get_or subst.now.instead.items number None ≡ Some by }
        ensures { AreMoved subst.now.list self.new.cells.items self.new.news.items }
    {
        let _list = subst;
        let Some(new) = new_source(&self.news, by) else {
            return;
        };
        if let Some(place) = self.news.get_mut(number as usize) {
            *place = Some(new);
        }
    }

    // Puts a cell at the end of the new cells, if what it reads has moved.
    fn come(&mut self, subst: &Substitution, number: u32) -> Result<(), RewriteError>
        requires { AreMoved subst.now.list self.old.cells.items self.old.news.items }
        ensures { OnOk result (AreMoved subst.now.list self.new.cells.items self.new.news.items) }
    {
        let Some(old) = subst.cell_at(number) else {
            return Ok(());
        };
        let Some(cell) = new_cell(&self.news, old) else {
            return Ok(());
        };
        let Ok(last) = u32::try_from(self.cells.len()) else {
            return Ok(());
        };
        self.cells.push(cell)?;
        if let Some(place) = self.news.get_mut(number as usize) {
            *place = Some(Src::Cell(last));
        }
        Ok(())
    }

    /// Moves a cell, if what it reads has moved. A replaced cell goes where the source goes that is
    /// read in its place.
    pub fn add(&mut self, subst: &Substitution, number: u32) -> Result<(), RewriteError>
        requires are { AreMoved subst.now.list self.old.cells.items self.old.news.items }
        requires equal { AreEqual subst.now.list subst.now.instead.items }
        ensures { OnOk result (AreMoved subst.now.list self.new.cells.items self.new.news.items) }
    {
        match subst.instead.get(number as usize) {
            Some(Some(by)) => {
                self.follow(subst, number, *by);
                Ok(())
            }
            _ => self.come(subst, number),
        }
    }

    /// Moves cells one after another.
    pub fn add_all(&mut self, subst: &Substitution, order: &[u32]) -> Result<(), RewriteError>
        requires are { AreMoved subst.now.list self.old.cells.items self.old.news.items }
        requires equal { AreEqual subst.now.list subst.now.instead.items }
        ensures { OnOk result (AreMoved subst.now.list self.new.cells.items self.new.news.items) }
    {
        for number in order {
            self.add(subst, *number)?;
        }
        Ok(())
    }
}
