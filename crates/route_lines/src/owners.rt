// What each cell of a box belongs to.

use crate::board::small;
use crate::steps::STEPS;
use gate_library::{DrawnGate, GateDrawing};
use std::alloc::Global;
use ww_rule::{Pattern, State};

/// What a cell belongs to.
#[derive(Clone, Copy)]
pub enum Owner {
    /// The cell is empty.
    Nobody,
    /// The cell is drawn, and belongs to nothing yet.
    Open,
    /// A wire.
    Wire,
    /// The cell is the gate with this number, a lone cell.
    Lone(u32),
    /// A gate that is no lone cell; the cell is none of its ports.
    Inner,
    /// The gate with this number, whose input this is.
    In { gate: u32, input: u8 },
    /// The gate with this number, whose output this is.
    Out { gate: u32, output: u8 },
}

/// How many of the eight cells beside one are drawn; how many of these belong to gates; and how many of these are
/// no lone cells and no ports.
#[derive(Clone, Copy)]
pub struct Beside {
    pub drawn: u32,
    pub gates: u32,
    pub inner: u32,
}

/// What each cell of a box belongs to, row by row.
#[derive(Drop)]
pub struct Owners {
    pub width: u32,
    cells: Vec<Owner>,
}

impl Owners {
    /// Makes a box of so many columns that has no cells yet.
    pub fn new(alloc: Global, width: u32) -> Owners {
        Owners {
            width,
            cells: Vec::new(alloc),
        }
    }

    /// Makes a box of so many empty cells, and answers whether memory runs out.
    pub fn clear(&mut self, count: usize) -> bool {
        self.cells.clear();
        self.cells.resize(count, Owner::Nobody).is_err()
    }

    /// Adds the cells of a pattern, row by row, of which those that are drawn are open. Answers whether memory runs
    /// out.
    pub(crate) fn add_cells(&mut self, pattern: &Pattern) -> bool {
        let count = (self.width as usize).saturating_mul(pattern.rows.len());
        if self.cells.reserve(count).is_err() {
            return true;
        }
        for y in 0..pattern.rows.len() {
            for state in pattern.rows.row(y) {
                let owner = match state {
                    State::Empty => Owner::Nobody,
                    _ => Owner::Open,
                };
                if self.cells.push(owner).is_err() {
                    return true;
                }
            }
        }
        false
    }

    /// Returns how many cells there are.
    pub fn count(&self) -> u32 {
        small(self.cells.len())
    }

    /// Returns the cell with this number, as its column and its row.
    pub fn cell(&self, number: u32) -> (u32, u32) {
        let width = self.width.max(1);
        (number % width, number / width)
    }

    // The number of a cell, which is past that of the last one if the cell is outside.
    fn number(&self, cell: (u32, u32)) -> usize {
        if cell.0 >= self.width {
            return self.cells.len();
        }
        (cell.1 as usize)
            .saturating_mul(self.width as usize)
            .saturating_add(cell.0 as usize)
    }

    /// Returns what a cell belongs to. A cell outside the box is empty.
    pub fn of(&self, cell: (u32, u32)) -> Owner {
        let number = self.number(cell);
        if number < self.cells.len() {
            self.cells[number]
        } else {
            Owner::Nobody
        }
    }

    /// Gives a cell to an owner.
    pub fn give(&mut self, cell: (u32, u32), owner: Owner) {
        let number = self.number(cell);
        if number < self.cells.len() {
            self.cells[number] = owner;
        }
    }

    /// Gives the cells of a drawing to the gate that it is of, which has this number and is no lone cell.
    pub fn draw(&mut self, drawing: &GateDrawing, gate: DrawnGate, number: u32) {
        let (mut x, mut y) = (0u32, 0u32);
        for state in drawing.cells.as_slice() {
            if !matches!(state, State::Empty) {
                let cell = (gate.x.saturating_add(x), gate.y.saturating_add(y));
                self.give(cell, Owner::Inner);
            }
            x = x.saturating_add(1);
            if x == drawing.width {
                (x, y) = (0, y.saturating_add(1));
            }
        }
        self.draw_ports(drawing, gate, number);
    }

    // Gives the cells of a drawing's ports to the gate with this number.
    fn draw_ports(&mut self, drawing: &GateDrawing, gate: DrawnGate, number: u32) {
        let (mut input, mut output) = (0u8, 0u8);
        for port in drawing.outs.as_slice() {
            let cell = (gate.x.saturating_add(port.x), gate.y.saturating_add(port.y));
            let gate = number;
            self.give(cell, Owner::Out { gate, output });
            output = output.saturating_add(1);
        }
        for port in drawing.ins.as_slice() {
            let cell = (gate.x.saturating_add(port.x), gate.y.saturating_add(port.y));
            let gate = number;
            self.give(cell, Owner::In { gate, input });
            input = input.saturating_add(1);
        }
    }

    /// Counts the cells beside one.
    pub fn beside(&self, cell: (u32, u32)) -> Beside {
        let (mut drawn, mut gates, mut inner) = (0u32, 0u32, 0u32);
        for step in STEPS {
            let (is_drawn, is_gate, is_inner) = match self.of(step.from(cell)) {
                Owner::Nobody => (0, 0, 0),
                Owner::Open | Owner::Wire => (1, 0, 0),
                Owner::Inner => (1, 1, 1),
                _ => (1, 1, 0),
            };
            drawn = drawn.saturating_add(is_drawn);
            gates = gates.saturating_add(is_gate);
            inner = inner.saturating_add(is_inner);
        }
        Beside {
            drawn,
            gates,
            inner,
        }
    }

    // The one drawn cell beside a cell but the one before, or the cell itself if there is none, or more than one.
    fn next_cell(&self, cell: (u32, u32), before: (u32, u32)) -> (u32, u32) {
        let mut next = cell;
        for step in STEPS {
            let beside = step.from(cell);
            if beside != before && !matches!(self.of(beside), Owner::Nobody) {
                if next != cell {
                    return cell;
                }
                next = beside;
            }
        }
        next
    }

    /// Follows a wire from its first cell, which is open and beside the cell `before`. Its cells are given to it and
    /// are added to a path. Returns the cell of a gate to which it leads, or else its last cell; and whether memory ran
    /// out.
    pub(crate) fn trace(
        &mut self,
        path: &mut Vec<(u32, u32)>,
        before: (u32, u32),
        first: (u32, u32),
    ) -> ((u32, u32), bool) {
        let (mut last, mut end) = (before, first);
        for _ in 0..self.cells.len() {
            self.give(end, Owner::Wire);
            if path.push(end).is_err() {
                return (end, true);
            }
            let next = self.next_cell(end, last);
            match self.of(next) {
                Owner::Open => (last, end) = (end, next),
                Owner::Nobody | Owner::Wire => break,
                _ => return (next, false),
            }
        }
        (end, false)
    }
}
