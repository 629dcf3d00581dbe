// A list to which cells are added, and the sources that are read in place of cells.
ghost use Rattle.std.specs.Prelude.{◌≡◌, slice_get, true, IfOk, IfSome, OnOk};
ghost use Rattle.cell_rewriting.specs.Substitution.{AreEqual, Extends, AreEquivalent, IsSubstitute};

use crate::RewriteError;
use crate::copying::copied;
use crate::words::have_one_word;
use cell_core::{Cell, CellList, Src};
use resubstitution::Replacement;
use std::alloc::Global;

/// A list, and for each of its cells the source that is read in its place, if it is replaced.
#[derive(Drop)]
pub struct Substitution {
    pub list: CellList,
    pub instead: Vec<Option<Src>>,
}

// Adds a cell at the end, if what it reads is there.
fn add_cell(alloc: Global, list: &mut CellList, cell: Cell) -> Result<(), RewriteError>
    ensures { OnOk result (Extends list.old list.new) }
{
    if !cell.reads_there(list.inputs as usize, list.starts.len(), list.cells.len()) {
        return Ok(());
    }
    match list.push(alloc, cell) {
        Ok(()) => Ok(()),
        Err(_) => Err(RewriteError::NoMemory),
    }
}

// Adds cells at the end, and skips those that read a source that is not there.
fn add_cells(alloc: Global, list: &mut CellList, cells: &[Cell]) -> Result<(), RewriteError>
    ensures { OnOk result (Extends list.old list.new) }
{
    for cell in cells {
        add_cell(alloc, list, *cell)?;
    }
    Ok(())
}

impl Substitution {
    /// Copies a list, with no cell replaced.
    pub fn begin(alloc: Global, list: &CellList) -> Result<Substitution, RewriteError>
        ensures extends { IfOk result (λ s. Extends list.now s.list) }
        ensures equal { IfOk result (λ s. AreEqual s.list s.instead.items) }
    {
        let instead = vec![in alloc; None; list.cells.len()]?;
        Ok(Substitution {
            list: copied(alloc, list)?,
            instead,
        })
    }

    /// Returns the cell with a number, if there is one.
    pub fn cell_at(&self, number: u32) -> Option<Cell>
        ensures { result ≡ slice_get self.now.list.cells number }
    {
        self.list.cells.as_slice().get(number as usize).copied()
    }

    // What is read in place of a source, if it is replaced.
    fn next(&self, src: Src) -> Option<Src>
        requires { AreEqual self.now.list self.now.instead.items }
        ensures { IfSome result (AreEquivalent self.now.list src) }
    {
        let Src::Cell(i) = src else {
            return None;
        };
        match self.instead.get(i as usize) {
            Some(Some(other)) => Some(*other),
            _ => None,
        }
    }

    /// Follows the replacements from a source to the one that is read in the end.
    pub fn standing(&self, src: Src) -> Src
        requires { AreEqual self.now.list self.now.instead.items }
        ensures { AreEquivalent self.now.list src result }
    {
        let mut now = src;
        for _ in 0..self.instead.len() {
            match self.next(now) {
                Some(other) => now = other,
                None => break,
            }
        }
        now
    }

    // Whether the new source is there and words over the leaves show that it has the cell's bit.
    fn allows(&self, alloc: Global, new: &Replacement) -> Result<bool, RewriteError>
        requires { AreEqual self.now.list self.now.instead.items }
        ensures { IfOk result (λ yes. yes ≡ true →
            IsSubstitute self.now.list new.now.cell new.now.by) }
    {
        let list = &self.list;
        if new.cell as usize >= list.cells.len() {
            return Ok(false);
        }
        if !new
            .by
            .is_there(list.inputs as usize, list.starts.len(), list.cells.len())
        {
            return Ok(false);
        }
        have_one_word(
            alloc,
            self,
            &new.leaves,
            &new.cone,
            Src::Cell(new.cell),
            new.by,
        )
    }

    // Notes that a source is read in place of a cell.
    fn put(&mut self, cell: u32, by: Src)
        requires equal { AreEqual self.old.list self.old.instead.items }
        requires substitute { IsSubstitute self.old.list cell by }
        ensures equal { AreEqual self.new.list self.new.instead.items }
        ensures same { self.new.list ≡ self.old.list }
    {
        if let Some(place) = self.instead.get_mut(cell as usize) {
            *place = Some(by);
        }
    }

    // Adds cells at the end of the list.
    fn grow(&mut self, alloc: Global, cells: &[Cell]) -> Result<(), RewriteError>
        requires { AreEqual self.old.list self.old.instead.items }
        ensures equal { OnOk result (AreEqual self.new.list self.new.instead.items) }
        ensures extends { OnOk result (Extends self.old.list self.new.list) }
    {
        add_cells(alloc, &mut self.list, cells)
    }

    /// Replaces a cell, if words over the leaves show that the replacement is sound. Its new cells
    /// are added in any case.
    pub fn replace(&mut self, alloc: Global, new: &Replacement) -> Result<(), RewriteError>
        requires { AreEqual self.old.list self.old.instead.items }
        ensures equal { OnOk result (AreEqual self.new.list self.new.instead.items) }
        ensures extends { OnOk result (Extends self.old.list self.new.list) }
    {
        self.grow(alloc, &new.cells)?;
        if self.allows(alloc, new)? {
            self.put(new.cell, new.by);
        }
        Ok(())
    }

    /// Replaces cells, one after another.
    pub fn replace_all(&mut self, alloc: Global, all: &[Replacement]) -> Result<(), RewriteError>
        requires { AreEqual self.old.list self.old.instead.items }
        ensures equal { OnOk result (AreEqual self.new.list self.new.instead.items) }
        ensures extends { OnOk result (Extends self.old.list self.new.list) }
    {
        for new in all {
            self.replace(alloc, new)?;
        }
        Ok(())
    }
}
