// The order in which cells move: those that ports and nets need, each after those that it reads. No
// contract describes it, since a cell that would move too early does not move.
use crate::RewriteError;
use crate::substitution::Substitution;
use cell_core::{Cell, CellList, Src};
use std::alloc::Global;

// What is still to be done at a cell.
#[derive(Clone, Copy)]
enum Visit {
    Enter(u32),
    Leave(u32),
}

// A walk over cells that goes down to what they read.
#[derive(Drop)]
struct Walk {
    seen: Vec<bool>,
    order: Vec<u32>,
    todo: Vec<Visit>,
}

// What is read in place of a replaced cell, or else what the cell reads.
fn reads(subst: &Substitution, number: u32) -> (Src, Src) {
    if let Some(Some(by)) = subst.instead.get(number as usize) {
        return (*by, Src::Zero);
    }
    match subst.list.cells.as_slice().get(number as usize) {
        Some(Cell::Or(a, b) | Cell::Xor(a, b) | Cell::AndNot(a, b)) => (*a, *b),
        None => (Src::Zero, Src::Zero),
    }
}

// Marks a cell, and answers whether it was not marked.
fn mark(seen: &mut [bool], number: u32) -> bool {
    match seen.get_mut(number as usize) {
        Some(known) => {
            let is_new = !*known;
            *known = true;
            is_new
        }
        None => false,
    }
}

impl Walk {
    fn begin(alloc: Global, count: usize) -> Result<Walk, RewriteError> {
        Ok(Walk {
            seen: vec![in alloc; false; count]?,
            order: Vec::with_capacity(alloc, count)?,
            todo: Vec::new(alloc),
        })
    }

    fn push(&mut self, src: Src) -> Result<(), RewriteError> {
        if let Src::Cell(number) = src {
            self.todo.push(Visit::Enter(number))?;
        }
        Ok(())
    }

    fn enter(&mut self, subst: &Substitution, number: u32) -> Result<(), RewriteError> {
        if !mark(&mut self.seen, number) {
            return Ok(());
        }
        let (first, second) = reads(subst, number);
        self.todo.push(Visit::Leave(number))?;
        self.push(second)?;
        self.push(first)
    }

    // Walks down from a source. Each cell is entered once, so there are at most three visits a
    // cell.
    fn from(&mut self, subst: &Substitution, src: Src) -> Result<(), RewriteError> {
        self.push(src)?;
        for _ in 0..=self.seen.len().saturating_mul(3) {
            match self.todo.pop() {
                Some(Visit::Enter(number)) => self.enter(subst, number)?,
                Some(Visit::Leave(number)) => self.order.push(number)?,
                None => break,
            }
        }
        Ok(())
    }

    // Walks down from the ports and nets of the list.
    fn from_ports(&mut self, subst: &Substitution) -> Result<(), RewriteError> {
        let list: &CellList = &subst.list;
        self.from_all(subst, list.outs.as_slice())?;
        self.from_all(subst, list.latches.as_slice())?;
        self.from_all(subst, list.nets.as_slice())
    }

    // Walks down from the marked cells.
    fn from_marked(&mut self, subst: &Substitution, marks: &[bool]) -> Result<(), RewriteError> {
        for (place, is_marked) in marks.iter().enumerate() {
            if *is_marked {
                let number = u32::try_from(place).unwrap_or(u32::MAX);
                self.from(subst, Src::Cell(number))?;
            }
        }
        Ok(())
    }

    fn from_all(&mut self, subst: &Substitution, sources: &[Src]) -> Result<(), RewriteError> {
        for src in sources {
            self.from(subst, *src)?;
        }
        Ok(())
    }
}

// A mark for each cell that an output, a latch or a net needs.
fn needed(alloc: Global, subst: &Substitution) -> Result<Vec<bool>, RewriteError> {
    let mut walk = Walk::begin(alloc, subst.list.cells.len())?;
    match walk.from_ports(subst) {
        Ok(()) => Ok(walk.seen),
        Err(error) => {
            drop(walk);
            Err(error)
        }
    }
}

/// Returns the needed cells, each after those that it reads, and otherwise in the order of the
/// list.
pub fn order_of(alloc: Global, subst: &Substitution) -> Result<Vec<u32>, RewriteError> {
    let needed = needed(alloc, subst)?;
    let mut walk = Walk::begin(alloc, needed.len())?;
    match walk.from_marked(subst, &needed) {
        Ok(()) => Ok(walk.order),
        Err(error) => {
            drop(walk);
            Err(error)
        }
    }
}
