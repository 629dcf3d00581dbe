// A list of cells as a network that changes: each cell with its readers.
use cell_core::{Cell, CellList, Src};
use std::alloc::Global;
use std::mem;

/// What may become of a cell.
#[derive(Clone, Copy)]
pub enum Role {
    /// It may be replaced.
    Free,
    /// It stays the cell that it is.
    Kept,
    /// It is no longer read.
    Gone,
}

// A cell, the cells that read it, and how often it is read by cells and ports.
#[derive(Drop)]
struct Gate {
    cell: Cell,
    readers: Vec<u32>,
    uses: u32,
    role: Role,
}

/// The cells of a list, each with its readers, and the readers of the list's inputs and latches.
#[derive(Drop)]
pub struct Network {
    gates: Vec<Gate>,
    inputs: Vec<Vec<u32>>,
    latches: Vec<Vec<u32>>,
    /// Whether constant 1 may be read.
    pub has_one: bool,
    /// Whether memory was refused: then something is missing here.
    pub is_refused: bool,
}

/// Returns the two sources that a cell reads.
pub fn operands(cell: Cell) -> (Src, Src) {
    match cell {
        Cell::Or(a, b) | Cell::Xor(a, b) | Cell::AndNot(a, b) => (a, b),
    }
}

// The source, or `to` if it is `from`.
fn patched(src: Src, from: Src, to: Src) -> Src {
    if src == from { to } else { src }
}

// The cell, which reads `to` where it read `from`.
fn patched_cell(cell: Cell, from: Src, to: Src) -> Cell {
    match cell {
        Cell::Or(a, b) => Cell::Or(patched(a, from, to), patched(b, from, to)),
        Cell::Xor(a, b) => Cell::Xor(patched(a, from, to), patched(b, from, to)),
        Cell::AndNot(a, b) => Cell::AndNot(patched(a, from, to), patched(b, from, to)),
    }
}

// Adds so many lists without readers. Returns whether memory was refused.
fn push_empty(lists: &mut Vec<Vec<u32>>, alloc: Global, count: usize) -> bool {
    for _ in 0..count {
        if lists.push(Vec::new(alloc)).is_err() {
            return true;
        }
    }
    false
}

// Takes one entry of a number out of a list.
fn take_out(readers: &mut Vec<u32>, number: u32) {
    for place in 0..readers.len() {
        if place < readers.len() && readers[place] == number {
            readers.swap_remove(place);
            return;
        }
    }
}

impl Network {
    /// Makes the network of a list, in which the kept sources stay the cells that they are.
    pub fn of(alloc: Global, list: &CellList, kept: &[Src]) -> Network {
        let mut network = Network {
            gates: Vec::new(alloc),
            inputs: Vec::new(alloc),
            latches: Vec::new(alloc),
            has_one: list.names_one(),
            is_refused: false,
        };
        network.take_in(alloc, list);
        network.keep_all(kept);
        network
    }

    // Takes a list into a network that has no cells.
    fn take_in(&mut self, alloc: Global, list: &CellList) {
        self.is_refused |= push_empty(&mut self.inputs, alloc, list.inputs as usize)
            | push_empty(&mut self.latches, alloc, list.starts.len())
            | self.gates.reserve(list.cells.len()).is_err();
        for cell in list.cells.as_slice() {
            self.add(alloc, *cell);
        }
        self.use_all(list.outs.as_slice());
        self.use_all(list.latches.as_slice());
        self.use_all(list.nets.as_slice());
    }

    /// Returns the number that the next cell gets.
    pub fn next_number(&self) -> u32 {
        u32::try_from(self.gates.len()).unwrap_or(u32::MAX)
    }

    /// Adds a cell at the end, and returns its number.
    pub fn add(&mut self, alloc: Global, cell: Cell) -> u32 {
        let number = self.next_number();
        let gate = Gate {
            cell,
            readers: Vec::new(alloc),
            uses: 0,
            role: Role::Free,
        };
        self.is_refused |= self.gates.push(gate).is_err();
        let (a, b) = operands(cell);
        self.read(a, number);
        self.read(b, number);
        number
    }

    // Notes that a cell reads a source.
    fn read(&mut self, src: Src, reader: u32) {
        self.use_more(src, 1);
        if let Some(readers) = self.readers_mut(src) {
            if readers.push(reader).is_err() {
                self.is_refused = true;
            }
        }
    }

    fn readers_mut(&mut self, src: Src) -> Option<&mut Vec<u32>> {
        match src {
            Src::Input(i) => self.inputs.get_mut(i as usize),
            Src::Latch(i) => self.latches.get_mut(i as usize),
            Src::Cell(i) => match self.gates.get_mut(i as usize) {
                Some(gate) => Some(&mut gate.readers),
                None => None,
            },
            Src::One | Src::Zero => None,
        }
    }

    /// Returns the cells that read a source. Those that read a constant are not kept.
    pub fn readers(&self, src: Src) -> Option<&Vec<u32>> {
        match src {
            Src::Input(i) => self.inputs.get(i as usize),
            Src::Latch(i) => self.latches.get(i as usize),
            Src::Cell(i) => match self.gates.get(i as usize) {
                Some(gate) => Some(&gate.readers),
                None => None,
            },
            Src::One | Src::Zero => None,
        }
    }

    fn use_more(&mut self, src: Src, count: u32) {
        if let Src::Cell(i) = src {
            if let Some(gate) = self.gates.get_mut(i as usize) {
                gate.uses = gate.uses.saturating_add(count);
            }
        }
    }

    // Notes that ports read these sources.
    fn use_all(&mut self, sources: &[Src]) {
        for src in sources {
            self.use_more(*src, 1);
        }
    }

    fn keep_all(&mut self, sources: &[Src]) {
        for src in sources {
            if let Src::Cell(i) = *src {
                self.set_role(i, Role::Kept);
            }
        }
    }

    fn set_role(&mut self, number: u32, role: Role) {
        if let Some(gate) = self.gates.get_mut(number as usize) {
            gate.role = role;
        }
    }

    /// Returns the cell of a number, and what may become of it.
    pub fn role(&self, number: u32) -> Option<(Cell, Role)> {
        match self.gates.get(number as usize) {
            Some(gate) => Some((gate.cell, gate.role)),
            None => None,
        }
    }

    /// Returns the cell of a number.
    pub fn cell(&self, number: u32) -> Option<Cell> {
        match self.gates.get(number as usize) {
            Some(gate) => Some(gate.cell),
            None => None,
        }
    }

    /// Returns the two sources that the cell of a number reads.
    pub fn operands(&self, number: u32) -> Option<(Src, Src)> {
        match self.gates.get(number as usize) {
            Some(gate) => Some(operands(gate.cell)),
            None => None,
        }
    }

    /// Returns a cell and the cells that go with it: those that nothing needs without it.
    pub fn cone_of(&mut self, alloc: Global, number: u32) -> Vec<u32> {
        let mut gone = Vec::new(alloc);
        self.release_all(&mut gone, number);
        self.restore(&gone);
        gone
    }

    // Lists a cell and what is no longer read without it, and takes their uses away.
    fn release_all(&mut self, gone: &mut Vec<u32>, number: u32) {
        self.is_refused |= gone.push(number).is_err();
        for place in 0..self.gates.len() {
            if place >= gone.len() {
                break;
            }
            let next = gone[place];
            self.release_operands(gone, next);
        }
    }

    // Takes a use from each source that a cell reads; those that are no longer read go too.
    fn release_operands(&mut self, gone: &mut Vec<u32>, number: u32) {
        if let Some((a, b)) = self.operands(number) {
            self.release(gone, a);
            self.release(gone, b);
        }
    }

    // Takes a use from a source, which goes too if it is a cell that has no other use.
    fn release(&mut self, gone: &mut Vec<u32>, src: Src) {
        let Src::Cell(i) = src else {
            return;
        };
        if (i as usize) < self.gates.len() {
            let uses = self.gates[i as usize].uses.saturating_sub(1);
            self.gates[i as usize].uses = uses;
            if uses == 0 {
                self.is_refused |= gone.push(i).is_err();
            }
        }
    }

    // Gives a use back to each source that the cells read.
    fn restore(&mut self, gone: &[u32]) {
        for number in gone {
            if let Some((a, b)) = self.operands(*number) {
                self.use_more(a, 1);
                self.use_more(b, 1);
            }
        }
    }

    // Takes the readers of a cell away, and gives its uses to another source.
    fn take_readers(&mut self, alloc: Global, number: u32, by: Src) -> Vec<u32> {
        let Some(gate) = self.gates.get_mut(number as usize) else {
            return Vec::new(alloc);
        };
        let readers = mem::replace(&mut gate.readers, Vec::new(alloc));
        let uses = gate.uses;
        gate.uses = 0;
        self.use_more(by, uses);
        readers
    }

    // Makes a cell read the second source in place of the first.
    fn patch(&mut self, number: u32, from: Src, to: Src) {
        if let Some(gate) = self.gates.get_mut(number as usize) {
            gate.cell = patched_cell(gate.cell, from, to);
        }
    }

    // Makes the readers of a cell read a source in its place.
    fn patch_all(&mut self, readers: &[u32], number: u32, by: Src) {
        for reader in readers {
            self.patch(*reader, Src::Cell(number), by);
        }
        if let Some(more) = self.readers_mut(by) {
            if more.extend_from_slice(readers).is_err() {
                self.is_refused = true;
            }
        }
    }

    /// Makes the readers of a cell read a source in its place, and removes the cell with those that
    /// only it needed.
    pub fn replace(&mut self, alloc: Global, number: u32, by: Src) {
        let readers = self.take_readers(alloc, number, by);
        self.patch_all(&readers, number, by);
        self.remove(alloc, number);
    }

    // Takes a cell away, and those that nothing reads without it.
    fn remove(&mut self, alloc: Global, number: u32) {
        let mut gone = Vec::new(alloc);
        self.is_refused |= gone.push(number).is_err();
        for _ in 0..self.gates.len() {
            let Some(next) = gone.pop() else {
                break;
            };
            self.remove_one(&mut gone, next);
        }
    }

    fn remove_one(&mut self, gone: &mut Vec<u32>, number: u32) {
        self.set_role(number, Role::Gone);
        if let Some((a, b)) = self.operands(number) {
            self.unread(a, number);
            self.unread(b, number);
        }
        self.release_operands(gone, number);
    }

    // Notes that a cell no longer reads a source.
    fn unread(&mut self, src: Src, number: u32) {
        if let Some(readers) = self.readers_mut(src) {
            take_out(readers, number);
        }
    }
}
