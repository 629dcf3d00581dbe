// An order of cells in which the next is the one that is worth most. The contract gives only the
// range of its numbers: `in_order` checks the rest.
ghost use Rattle.std.specs.Prelude.{◌≤◌, ◌<◌, length, All, IfOk};

use crate::ReorderError;
use cell_core::{Cell, CellList, Src};
use std::alloc::Global;
use std::cmp::Reverse;
use std::collections::BinaryHeap;

// What a cell reads, each source once.
fn operands(cell: Cell) -> (Src, Option<Src>) {
    match cell {
        Cell::Or(a, b) | Cell::Xor(a, b) | Cell::AndNot(a, b) => {
            let other = if a == b { None } else { Some(b) };
            (a, other)
        }
    }
}

// A value: the cells that read it, and how many uses by cells and ports are still to come.
#[derive(Drop)]
struct Value {
    readers: Vec<u32>,
    uses: u32,
}

// A cell that is still to come: how many others it waits for, and what it is worth to take it next.
#[derive(Clone, Copy)]
struct Pending {
    waits: u32,
    worth: u32,
    is_taken: bool,
}

// A cell before its operands are read.
const WAITS_FOR_NOTHING: Pending = Pending {
    waits: 0,
    worth: 0,
    is_taken: false,
};

// What a value with so many uses left adds to the worth of a cell that reads it: the fewer uses are
// left, the more, if they are fewer than `reach`, and much more for the last use.
fn worth(reach: u32, uses: u32) -> u32 {
    let near = reach.saturating_sub(uses);
    if uses <= 1 {
        near.saturating_add(reach.saturating_mul(4))
    } else {
        near
    }
}

// The values by number, inputs first, then latches and cells; the cells; and a heap of those that
// wait for nothing, the one that is worth most on top, and of equals the first.
#[derive(Drop)]
struct Search {
    reach: u32,
    inputs: usize,
    latches: usize,
    values: Vec<Value>,
    pending: Vec<Pending>,
    ready: BinaryHeap<(u32, Reverse<u32>)>,
}

// A number of values that nothing reads yet.
fn unread_values(alloc: Global, count: usize) -> Result<Vec<Value>, ReorderError> {
    let mut values = Vec::with_capacity(alloc, count)?;
    for _value in 0..count {
        values.push(Value {
            readers: Vec::new(alloc),
            uses: 0,
        })?;
    }
    Ok(values)
}

impl Search {
    // The search before anything is read.
    fn begin(alloc: Global, list: &CellList, reach: u32) -> Result<Search, ReorderError> {
        let inputs = list.inputs as usize;
        let latches = list.starts.len();
        let cells = list.cells.len();
        let count = inputs.saturating_add(latches).saturating_add(cells);
        Ok(Search {
            reach,
            inputs,
            latches,
            values: unread_values(alloc, count)?,
            pending: vec![in alloc; WAITS_FOR_NOTHING; cells]?,
            ready: BinaryHeap::new(alloc),
        })
    }

    // The number of the value that a cell makes.
    fn made_by(&self, cell: usize) -> usize {
        self.inputs
            .saturating_add(self.latches)
            .saturating_add(cell)
    }

    // The number of a source's value, if the source is no constant.
    fn number(&self, src: Src) -> Option<usize> {
        match src {
            Src::Input(i) => Some(i as usize),
            Src::Latch(i) => Some(self.inputs.saturating_add(i as usize)),
            Src::Cell(i) => Some(self.made_by(i as usize)),
            Src::One | Src::Zero => None,
        }
    }

    // Counts a port's use of a source.
    fn read_by_port(&mut self, src: Src) {
        if let Some(number) = self.number(src) {
            if let Some(value) = self.values.get_mut(number) {
                value.uses = value.uses.saturating_add(1);
            }
        }
    }

    // Counts the uses of sources by ports.
    fn read_by_ports(&mut self, sources: &[Src]) {
        for src in sources {
            self.read_by_port(*src);
        }
    }

    // Notes that a cell reads a source, and that it waits for the source if this is another cell.
    fn read_by_cell(&mut self, src: Src, cell: u32) -> Result<(), ReorderError> {
        let Some(number) = self.number(src) else {
            return Ok(());
        };
        if let Some(value) = self.values.get_mut(number) {
            value.uses = value.uses.saturating_add(1);
            value.readers.push(cell)?;
        }
        if let Src::Cell(_) = src {
            if let Some(pending) = self.pending.get_mut(cell as usize) {
                pending.waits = pending.waits.saturating_add(1);
            }
        }
        Ok(())
    }

    // Puts a cell on the heap if it waits for nothing.
    fn offer(&mut self, cell: u32) -> Result<(), ReorderError> {
        if let Some(pending) = self.pending.get(cell as usize) {
            if pending.waits == 0 && !pending.is_taken {
                self.ready.push((pending.worth, Reverse(cell)))?;
            }
        }
        Ok(())
    }

    // Raises the worth of the cells that read a value.
    fn raise_readers(&mut self, number: usize, more: u32) -> Result<(), ReorderError> {
        let count = match self.values.get(number) {
            Some(value) if more > 0 => value.readers.len(),
            _ => 0,
        };
        for i in 0..count {
            if let Some(cell) = self.reader(number, i) {
                self.raise(cell, more)?;
            }
        }
        Ok(())
    }

    // Raises the worth of a cell.
    fn raise(&mut self, cell: u32, more: u32) -> Result<(), ReorderError> {
        if let Some(pending) = self.pending.get_mut(cell as usize) {
            pending.worth = pending.worth.saturating_add(more);
        }
        self.offer(cell)
    }

    // How many uses of a value are still to come.
    fn uses(&self, number: usize) -> u32 {
        match self.values.get(number) {
            Some(value) => value.uses,
            None => 0,
        }
    }

    // One of the cells that read a value, by its number among them.
    fn reader(&self, number: usize, reader: usize) -> Option<u32> {
        let value = self.values.get(number)?;
        value.readers.get(reader).copied()
    }

    // Counts one use less of a source.
    fn use_up(&mut self, src: Src) -> Result<(), ReorderError> {
        let Some(number) = self.number(src) else {
            return Ok(());
        };
        let before = worth(self.reach, self.uses(number));
        if let Some(value) = self.values.get_mut(number) {
            value.uses = value.uses.saturating_sub(1);
        }
        let after = worth(self.reach, self.uses(number));
        self.raise_readers(number, after.saturating_sub(before))
    }

    // Lets a reader of a value wait for one cell less.
    fn wait_less(&mut self, number: usize, reader: usize) -> Result<(), ReorderError> {
        let Some(cell) = self.reader(number, reader) else {
            return Ok(());
        };
        if let Some(pending) = self.pending.get_mut(cell as usize) {
            pending.waits = pending.waits.saturating_sub(1);
        }
        self.offer(cell)
    }

    // The ready cell that is worth most, and of equals the first.
    fn next(&mut self) -> Option<u32> {
        while let Some((worth, Reverse(cell))) = self.ready.pop() {
            if let Some(pending) = self.pending.get(cell as usize) {
                if pending.worth == worth && !pending.is_taken {
                    return Some(cell);
                }
            }
        }
        None
    }

    // Takes a cell as the next one.
    fn take(&mut self, list: &CellList, cell: u32) -> Result<(), ReorderError> {
        if let Some(pending) = self.pending.get_mut(cell as usize) {
            pending.is_taken = true;
        }
        if let Some(taken) = list.cells.as_slice().get(cell as usize) {
            let (first, second) = operands(*taken);
            self.use_up(first)?;
            if let Some(src) = second {
                self.use_up(src)?;
            }
        }
        let number = self.made_by(cell as usize);
        let readers = match self.values.get(number) {
            Some(value) => value.readers.len(),
            None => 0,
        };
        for reader in 0..readers {
            self.wait_less(number, reader)?;
        }
        Ok(())
    }

    // Reads the operands of all cells and what the ports read.
    fn read(&mut self, list: &CellList) -> Result<(), ReorderError> {
        self.read_by_ports(list.outs.as_slice());
        self.read_by_ports(list.latches.as_slice());
        for cell in 0..list.cells.len() {
            self.read_cell(list, cell)?;
        }
        Ok(())
    }

    // Reads the operands of a cell.
    fn read_cell(&mut self, list: &CellList, cell: usize) -> Result<(), ReorderError> {
        let Some(number) = u32::try_from(cell).ok() else {
            return Ok(());
        };
        let Some(read) = list.cells.as_slice().get(cell) else {
            return Ok(());
        };
        let (first, second) = operands(*read);
        self.read_by_cell(first, number)?;
        match second {
            Some(src) => self.read_by_cell(src, number),
            None => Ok(()),
        }
    }

    // Adds to each cell its worth by the values that it reads.
    fn weigh_readers(&mut self) -> Result<(), ReorderError> {
        for number in 0..self.values.len() {
            self.raise_readers(number, worth(self.reach, self.uses(number)))?;
        }
        Ok(())
    }

    // Adds to each cell its worth by the value that it makes, where making counts as a use.
    fn weigh_results(&mut self) -> Result<(), ReorderError> {
        for cell in 0..self.pending.len() {
            let uses = self.uses(self.made_by(cell)).saturating_add(1);
            if let Ok(number) = u32::try_from(cell) {
                self.raise(number, worth(self.reach, uses))?;
            }
        }
        Ok(())
    }

    // Sets the worth of all cells before any has come.
    fn weigh(&mut self, list: &CellList) -> Result<(), ReorderError> {
        self.read(list)?;
        self.weigh_readers()?;
        self.weigh_results()
    }

    // The numbers of the cells that come, in their order.
    fn take_all(&mut self, alloc: Global, list: &CellList) -> Result<Vec<u32>, ReorderError>
        ensures few { IfOk result (λ order. length order.items ≤ length list.now.cells) }
        ensures below { IfOk result (λ order.
            All (λ cell. cell < length list.now.cells) order.items
            ) }
    {
        let cells = list.cells.len();
        let mut order = Vec::with_capacity(alloc, cells)?;
        for _ in 0..cells {
            let Some(cell) = self.next() else {
                break;
            };
            if cell as usize >= cells {
                break;
            }
            self.take(list, cell)?;
            order.push(cell)?;
        }
        Ok(order)
    }
}

/// Returns an order of the list's cells, by their numbers, in which fewer values are needed at a
/// time. The next cell waits for no other; of these it is the one that is worth most, and of equals
/// the first of the list. A cell is worth more for each value that it reads or makes with fewer
/// than `reach` uses left, and much more if it is the value's last use; making a value counts as a
/// use.
pub fn ending_order(alloc: Global, list: &CellList, reach: u32) -> Result<Vec<u32>, ReorderError>
    ensures few { IfOk result (λ order. length order.items ≤ length list.now.cells) }
    ensures below { IfOk result (λ order. All (λ cell. cell < length list.now.cells) order.items) }
{
    let mut search = Search::begin(alloc, list, reach)?;
    search.weigh(list)?;
    search.take_all(alloc, list)
}
