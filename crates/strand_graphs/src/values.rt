// The values of a list of cells: those that are read, and how often.

use cell_core::{Cell, CellList, Src, is_same_src};
use lists::OutOfMemory;
use std::alloc::Global;
use strand_core::{add, at, put};
use strand_orders::small;

/// The values of a list, by numbers: the inputs, the latches, the cells and constant 1. Constant 0 is none of them.
#[derive(Drop)]
pub struct Values {
    pub inputs: u32,
    pub latches: u32,
    pub cells: u32,
    /// What each cell is, over what its sources are: itself, or a source that it equals.
    made: Vec<Src>,
    /// How often each value is read by what matters for an output.
    pub reads: Vec<u32>,
    // the values for which what they read has still to be read
    todo: Vec<u32>,
    is_refused: bool,
}

// What a cell equals, over sources that are none of the cells that equal others.
fn simplified(cell: Cell) -> Option<Src> {
    match cell {
        Cell::Or(a, Src::Zero) | Cell::Xor(a, Src::Zero) | Cell::AndNot(a, Src::Zero) => Some(a),
        Cell::Or(Src::Zero, b) | Cell::Xor(Src::Zero, b) => Some(b),
        Cell::AndNot(Src::Zero, _) | Cell::AndNot(_, Src::One) => Some(Src::Zero),
        Cell::Or(Src::One, _) | Cell::Or(_, Src::One) => Some(Src::One),
        Cell::Or(a, b) if is_same_src(a, b) => Some(a),
        Cell::Xor(a, b) | Cell::AndNot(a, b) if is_same_src(a, b) => Some(Src::Zero),
        _ => None,
    }
}

impl Values {
    /// Returns the values of a list.
    pub fn of(alloc: Global, list: &CellList) -> Result<Values, OutOfMemory> {
        let latches = small(list.latches.len());
        let cells = small(list.cells.len());
        let count = list.inputs.saturating_add(latches).saturating_add(cells);
        let mut values = Values {
            inputs: list.inputs,
            latches,
            cells,
            made: Vec::new(alloc),
            reads: vec![in alloc; 0u32; count.saturating_add(1) as usize]?,
            todo: Vec::new(alloc),
            is_refused: false,
        };
        values.find_made(list.cells.as_slice());
        values.read_all(list);
        if values.is_refused {
            Err(OutOfMemory::NoMemory)
        } else {
            Ok(values)
        }
    }

    fn find_made(&mut self, cells: &[Cell]) {
        for cell in cells {
            let made = match simplified(self.over(*cell)) {
                Some(src) => src,
                None => Src::Cell(small(self.made.len())),
            };
            add(&mut self.made, made, &mut self.is_refused);
        }
    }

    /// Returns what a source is, after all that reads constant 0 is gone.
    pub fn source(&self, src: Src) -> Src {
        match src {
            Src::Cell(number) => self.made.get(number as usize).copied().unwrap_or(Src::Zero),
            _ => src,
        }
    }

    // A cell over what its sources are.
    fn over(&self, cell: Cell) -> Cell {
        match cell {
            Cell::Or(a, b) => Cell::Or(self.source(a), self.source(b)),
            Cell::Xor(a, b) => Cell::Xor(self.source(a), self.source(b)),
            Cell::AndNot(a, b) => Cell::AndNot(self.source(a), self.source(b)),
        }
    }

    /// Returns the sources of a cell.
    pub fn operands(&self, cell: Cell) -> (Src, Src) {
        match self.over(cell) {
            Cell::Or(a, b) | Cell::Xor(a, b) | Cell::AndNot(a, b) => (a, b),
        }
    }

    /// Returns the number of constant 1.
    pub fn one(&self) -> u32 {
        self.made_by(self.cells)
    }

    /// Returns the number behind those of all values, which stands for constant 0.
    pub fn zero(&self) -> u32 {
        self.one().saturating_add(1)
    }

    /// Returns the number of a latch.
    pub fn latch(&self, latch: u32) -> u32 {
        self.inputs.saturating_add(latch)
    }

    /// Returns the number of the value that a cell makes.
    pub fn made_by(&self, cell: u32) -> u32 {
        self.latch(self.latches).saturating_add(cell)
    }

    /// Returns the number of the value that a source is, but for constant 0.
    pub fn number(&self, src: Src) -> Option<u32> {
        match self.source(src) {
            Src::Input(input) => Some(input),
            Src::Latch(latch) => Some(self.latch(latch)),
            Src::One => Some(self.one()),
            Src::Zero => None,
            Src::Cell(cell) => Some(self.made_by(cell)),
        }
    }

    /// Returns how often a value is read.
    pub fn reads_of(&self, value: u32) -> u32 {
        at(&self.reads, value)
    }

    /// Returns whether a cell is made: whether its value is read, and equals no other one.
    pub fn is_made(&self, cell: u32) -> bool {
        is_same_src(self.source(Src::Cell(cell)), Src::Cell(cell))
            && self.reads_of(self.made_by(cell)) > 0
    }

    // Counts that a source is read. If it is for the first time, what the value reads has still to be read.
    fn read(&mut self, src: Src) {
        let Some(value) = self.number(src) else {
            return;
        };
        let count = at(&self.reads, value);
        put(&mut self.reads, value, count.saturating_add(1));
        if count == 0 {
            add(&mut self.todo, value, &mut self.is_refused);
        }
    }

    // Reads what matters for an output.
    fn read_all(&mut self, list: &CellList) {
        for src in list.outs.as_slice() {
            self.read(*src);
        }
        for _ in 0..self.reads.len() {
            let Some(value) = self.todo.pop() else {
                return;
            };
            self.read_sources(list, value);
        }
    }

    // Reads what a latch or a cell reads, or constant 1.
    fn read_sources(&mut self, list: &CellList, value: u32) {
        if value >= self.one() {
            self.read(Src::One);
        } else if let Some(cell) = value.checked_sub(self.made_by(0)) {
            self.read_cell(list.cells.as_slice(), cell);
        } else if let Some(latch) = value.checked_sub(self.inputs) {
            if let Some(src) = list.latches.as_slice().get(latch as usize) {
                self.read(*src);
            }
        }
    }

    fn read_cell(&mut self, cells: &[Cell], number: u32) {
        if let Some(cell) = cells.get(number as usize) {
            let (first, second) = self.operands(*cell);
            self.read(first);
            self.read(second);
        }
    }
}
