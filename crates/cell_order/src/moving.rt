// Cells that are moved to other places, one after another.
ghost use Rattle.std.specs.Prelude.{◌≡◌, ◌<◌, map, slice_get, IfOk, IfSome, OnOk, Some};
ghost use Rattle.cell_order.specs.Renamed.{renamed, renamed_cell, AreRenamed};

use crate::ReorderError;
use cell_core::{Cell, CellList, Src};
use std::alloc::Global;

// The source under the new numbers, if it has one.
fn renamed(numbers: &[Option<u32>], src: Src) -> Option<Src>
    ensures { result ≡ renamed numbers.now src }
{
    match src {
        Src::Cell(i) => match numbers.get(i as usize) {
            Some(Some(number)) => Some(Src::Cell(*number)),
            _ => None,
        },
        Src::Input(_) | Src::Latch(_) | Src::One | Src::Zero => Some(src),
    }
}

fn renamed_cell(numbers: &[Option<u32>], cell: Cell) -> Option<Cell>
    ensures { result ≡ renamed_cell numbers.now cell }
{
    match cell {
        Cell::Or(a, b) => Some(Cell::Or(renamed(numbers, a)?, renamed(numbers, b)?)),
        Cell::Xor(a, b) => Some(Cell::Xor(renamed(numbers, a)?, renamed(numbers, b)?)),
        Cell::AndNot(a, b) => Some(Cell::AndNot(renamed(numbers, a)?, renamed(numbers, b)?)),
    }
}

// The cell of a number, if the list has one.
fn cell_at(list: &CellList, number: u32) -> Option<Cell>
    ensures { result ≡ slice_get list.now.cells number }
{
    list.cells.as_slice().get(number as usize).copied()
}

/// What the outputs, the latches and the nets of a list read.
#[derive(Drop)]
pub struct Ends {
    pub outs: Vec<Src>,
    pub latches: Vec<Src>,
    pub nets: Vec<Src>,
}

/// The cells that have come, and the new number of each cell of a list that is among them.
#[derive(Drop)]
pub struct Moved {
    pub cells: Vec<Cell>,
    pub numbers: Vec<Option<u32>>,
}

impl Moved {
    /// Begins with no cell.
    pub fn begin(alloc: Global, list: &CellList) -> Result<Moved, ReorderError>
        ensures { IfOk result (λ moved. AreRenamed list.now moved.cells.items moved.numbers.items) }
    {
        let many = list.cells.len();
        let mut numbers = Vec::with_capacity(alloc, many)?;
        numbers.resize(many, None)?;
        Ok(Moved {
            cells: Vec::with_capacity(alloc, many)?,
            numbers,
        })
    }

    /// Adds a cell of the list, if what it reads has come.
    pub fn add(&mut self, list: &CellList, number: u32) -> Result<(), ReorderError>
        requires { AreRenamed list.now self.old.cells.items self.old.numbers.items }
        ensures { OnOk result (AreRenamed list.now self.new.cells.items self.new.numbers.items) }
    {
        let Some(old) = cell_at(list, number) else {
            return Ok(());
        };
        let Some(cell) = renamed_cell(&self.numbers, old) else {
            return Ok(());
        };
        let Ok(place) = u32::try_from(self.cells.len()) else {
            return Ok(());
        };
        self.cells.push(cell)?;
        if let Some(known) = self.numbers.get_mut(number as usize) {
            *known = Some(place);
        }
        Ok(())
    }

    /// Returns the sources under the new numbers, or `None` if one of them has not come.
    pub fn sources(&self, alloc: Global, sources: &[Src]) -> Result<Option<Vec<Src>>, ReorderError>
        ensures { IfOk result (λ o.
            IfSome o (λ found.
            map (renamed self.now.numbers.items) sources.now ≡ map Some found.items
            )
            ) }
    {
        let mut found = Vec::with_capacity(alloc, sources.len())?;
        for src in sources {
            match renamed(&self.numbers, *src) {
                Some(src) => found.push(src)?,
                None => return Ok(None),
            }
        }
        Ok(Some(found))
    }

    /// Returns what the list's outputs, latches and nets read under the new numbers, or `None` if
    /// one of these sources has not come.
    pub fn ends(&self, alloc: Global, list: &CellList) -> Result<Option<Ends>, ReorderError>
        ensures outs { IfOk result (λ o.
            IfSome o (λ ends.
            map (renamed self.now.numbers.items) list.now.outs ≡ map Some ends.outs.items
            )
            ) }
        ensures latches { IfOk result (λ o.
            IfSome o (λ ends.
            map (renamed self.now.numbers.items) list.now.latches
            ≡ map Some ends.latches.items
            )
            ) }
        ensures nets { IfOk result (λ o.
            IfSome o (λ ends.
            map (renamed self.now.numbers.items) list.now.nets ≡ map Some ends.nets.items
            )
            ) }
    {
        let Some(outs) = self.sources(alloc, list.outs.as_slice())? else {
            return Ok(None);
        };
        let Some(latches) = self.sources(alloc, list.latches.as_slice())? else {
            return Ok(None);
        };
        let Some(nets) = self.sources(alloc, list.nets.as_slice())? else {
            return Ok(None);
        };
        Ok(Some(Ends {
            outs,
            latches,
            nets,
        }))
    }
}
