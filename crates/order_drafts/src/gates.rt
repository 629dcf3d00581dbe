// A list of cells by the numbers of its values: inputs, loops, constant 0, and then the values that
// the cells make.
use cell_core::{Cell, CellError, CellList, Src};
use std::alloc::Global;

/// A cell by the numbers of the values that it reads.
#[derive(Clone, Copy)]
pub struct Gate {
    pub first: usize,
    pub second: usize,
    /// Whether the first operand must stand above the second.
    pub is_and_not: bool,
}

/// What a list needs of the lanes. `ports` are the values of the loops' data and then those of the
/// outputs; `uses` says how often each value is read.
#[derive(Drop)]
pub struct Gates {
    pub inputs: usize,
    /// The inputs that are read.
    pub read: Vec<usize>,
    pub loops: usize,
    pub gates: Vec<Gate>,
    pub ports: Vec<usize>,
    pub uses: Vec<usize>,
    // the cells that read each value, each of them once
    readers: Vec<Vec<usize>>,
    // the last port that shows each value
    last_ports: Vec<Option<usize>>,
    // whether a lane stays dark, for constant 0
    pub(crate) is_dark: bool,
}

impl Gates {
    /// Returns the gates of a list.
    pub fn of(alloc: Global, list: &CellList) -> Result<Gates, CellError> {
        let ones = usize::from(list.names_one());
        let mut gates = Gates {
            inputs: list.inputs as usize,
            read: Vec::new(alloc),
            loops: list.starts.len().saturating_add(ones),
            gates: Vec::new(alloc),
            ports: Vec::new(alloc),
            uses: Vec::new(alloc),
            readers: Vec::new(alloc),
            last_ports: Vec::new(alloc),
            is_dark: false,
        };
        gates.fill(list)?;
        gates.find_read()?;
        gates.find_readers(alloc)?;
        Ok(gates)
    }

    // Notes which inputs are read.
    fn find_read(&mut self) -> Result<(), CellError> {
        for input in 0..self.inputs {
            if self.uses_of(input) > 0 {
                self.read.push(input)?;
            }
        }
        Ok(())
    }

    // Notes which cells read each value, and which port shows it last.
    fn find_readers(&mut self, alloc: Global) -> Result<(), CellError> {
        push_empty(&mut self.readers, alloc, self.uses.len())?;
        self.last_ports.resize(self.uses.len(), None)?;
        note_gates(&mut self.readers, &self.gates)?;
        note_ports(&mut self.last_ports, &self.ports);
        Ok(())
    }

    // Reads the cells and ports of the list.
    fn fill(&mut self, list: &CellList) -> Result<(), CellError> {
        let values = self.made_by(list.cells.len());
        self.uses.resize(values, 0)?;
        self.gates.reserve(list.cells.len())?;
        self.read_cells(list.cells.as_slice(), list.starts.len())?;
        self.read_ports(list)?;
        self.is_dark = self.uses_of(self.zero()) > 0 || list.nets.as_slice().contains(&Src::Zero);
        Ok(())
    }

    /// Returns the number of constant 0.
    pub fn zero(&self) -> usize {
        self.inputs.saturating_add(self.loops)
    }

    /// Returns the number of the value that a cell makes.
    pub fn made_by(&self, cell: usize) -> usize {
        self.zero().saturating_add(1).saturating_add(cell)
    }

    /// Returns how often a value is read.
    pub fn uses_of(&self, value: usize) -> usize {
        self.uses.get(value).copied().unwrap_or(0)
    }

    /// Returns the fewest lanes on which the cells can be placed in an order: one for each value
    /// that is still read, and for the copies in hand.
    pub fn fewest_lanes(&self, alloc: Global, order: &[usize]) -> Result<usize, CellError> {
        let mut left = self.uses.as_slice().to_vec(alloc)?;
        let most = self.most_live(&mut left, order);
        Ok(most.max(self.fewest_homes()).max(self.ports.len()))
    }

    // The most lanes in use at a time, if the values have `left` uses.
    fn most_live(&self, left: &mut [usize], order: &[usize]) -> usize {
        let mut live = count_used(left.get(..self.made_by(0)).unwrap_or(&[]));
        let mut most = live;
        for cell in order {
            if let Some(gate) = self.gates.get(*cell) {
                let ended = end_operands(left, *gate);
                most = most.max(live.saturating_add(2).saturating_sub(ended));
                live = live
                    .saturating_sub(ended)
                    .saturating_add(self.lanes_of(*cell));
                most = most.max(live);
            }
        }
        most
    }

    // How many lanes the value of a cell takes: none if it is not read.
    fn lanes_of(&self, cell: usize) -> usize {
        usize::from(self.uses_of(self.made_by(cell)) > 0)
    }

    // The cells that read a value.
    pub(crate) fn readers_of(&self, value: usize) -> &[usize] {
        match self.readers.get(value) {
            Some(readers) => readers.as_slice(),
            None => &[],
        }
    }

    /// Returns the last port that shows a value.
    pub fn last_port(&self, value: usize) -> Option<usize> {
        *self.last_ports.get(value)?
    }

    // The cell that makes a value.
    pub(crate) fn maker(&self, value: usize) -> Option<usize> {
        value.checked_sub(self.made_by(0))
    }

    /// Returns how many inputs nothing reads.
    pub fn unread(&self) -> usize {
        self.inputs.saturating_sub(self.read.len())
    }

    /// Returns how many lanes the inputs, the loops and a dark lane take.
    pub fn fewest_homes(&self) -> usize {
        self.zero().saturating_add(usize::from(self.is_dark))
    }

    /// Returns how many of so many lanes stand above those of the loops.
    pub fn above(&self, lanes: usize) -> usize {
        lanes.saturating_sub(self.loops)
    }

    /// Returns how many lanes more than the fewest the placer takes at most.
    pub fn most_spare(&self) -> usize {
        self.inputs.max(self.ports.len().saturating_sub(self.loops))
    }

    /// Returns how many tiles the drawing of so many columns and lanes has.
    pub fn tiles(&self, columns: usize, lanes: usize) -> u64 {
        let columns = columns.max(self.loops).max(lanes.min(1)) as u64;
        let loops = self.loops as u64;
        let width = columns.saturating_add(loops).saturating_add(loops);
        width.saturating_mul((lanes as u64).saturating_add(loops))
    }

    /// Returns the most columns of a drawing on so many lanes that has no more than `tiles` tiles.
    pub fn most_columns(&self, tiles: u64, lanes: usize) -> usize {
        let loops = self.loops as u64;
        let width = tiles / (lanes as u64).saturating_add(loops).max(1);
        width.saturating_sub(loops).saturating_sub(loops) as usize
    }

    // The number of a source, in a list of so many latches.
    fn number(&self, latches: usize, src: Src) -> usize {
        match src {
            Src::Input(i) => i as usize,
            Src::Latch(i) => self.inputs.saturating_add(i as usize),
            Src::One => self.inputs.saturating_add(latches),
            Src::Zero => self.zero(),
            Src::Cell(i) => self.made_by(i as usize),
        }
    }

    // Counts one more use of a value.
    fn count(&mut self, value: usize) {
        if let Some(uses) = self.uses.get_mut(value) {
            *uses = uses.saturating_add(1);
        }
    }

    fn read_cells(&mut self, cells: &[Cell], latches: usize) -> Result<(), CellError> {
        for cell in cells {
            let (first, second, is_and_not) = match *cell {
                Cell::Or(a, b) | Cell::Xor(a, b) => (a, b, false),
                Cell::AndNot(a, b) => (a, b, true),
            };
            let gate = Gate {
                first: self.number(latches, first),
                second: self.number(latches, second),
                is_and_not,
            };
            self.count(gate.first);
            self.count(gate.second);
            self.gates.push(gate)?;
        }
        Ok(())
    }

    fn read_port(&mut self, latches: usize, src: Src) -> Result<(), CellError> {
        let value = self.number(latches, src);
        self.count(value);
        self.ports.push(value)?;
        Ok(())
    }

    fn read_all(&mut self, latches: usize, sources: &[Src]) -> Result<(), CellError> {
        for src in sources {
            self.read_port(latches, *src)?;
        }
        Ok(())
    }

    // Reads the data of the loops, of which constant 1 is the last, and then the outputs.
    fn read_ports(&mut self, list: &CellList) -> Result<(), CellError> {
        let latches = list.starts.len();
        self.read_all(latches, list.latches.as_slice())?;
        if list.names_one() {
            self.read_port(latches, Src::One)?;
        }
        self.read_all(latches, list.outs.as_slice())
    }
}

// Counts one use less of a value; 1 if it was the last.
fn use_up(left: &mut [usize], value: usize) -> usize {
    match left.get_mut(value) {
        Some(uses) => {
            *uses = uses.saturating_sub(1);
            usize::from(*uses == 0)
        }
        None => 0,
    }
}

// Counts one use less of each operand of a gate; how many of these were the last.
fn end_operands(left: &mut [usize], gate: Gate) -> usize {
    let first = use_up(left, gate.first);
    first.saturating_add(use_up(left, gate.second))
}

// How many values have uses left.
fn count_used(left: &[usize]) -> usize {
    let mut count = 0usize;
    for uses in left {
        count = count.saturating_add(usize::from(*uses > 0));
    }
    count
}

// Adds so many empty lists.
fn push_empty(
    readers: &mut Vec<Vec<usize>>,
    alloc: Global,
    values: usize,
) -> Result<(), CellError> {
    for _ in 0..values {
        readers.push(Vec::new(alloc))?;
    }
    Ok(())
}

// Notes that a cell reads a value.
fn note_reader(readers: &mut [Vec<usize>], value: usize, cell: usize) -> Result<(), CellError> {
    if let Some(cells) = readers.get_mut(value) {
        cells.push(cell)?;
    }
    Ok(())
}

// Notes which cells read each value.
fn note_gates(readers: &mut [Vec<usize>], gates: &[Gate]) -> Result<(), CellError> {
    for (cell, gate) in gates.iter().enumerate() {
        note_reader(readers, gate.first, cell)?;
        if gate.second != gate.first {
            note_reader(readers, gate.second, cell)?;
        }
    }
    Ok(())
}

// Notes which port shows each value last.
fn note_ports(last_ports: &mut [Option<usize>], ports: &[usize]) {
    for (port, value) in ports.iter().enumerate() {
        if let Some(last) = last_ports.get_mut(*value) {
            *last = Some(port);
        }
    }
}
