// Boxes of cells.

use gate_library::{DrawnGate, GateDrawing, GateLibrary};
use lists::OutOfMemory;
use std::alloc::Global;
use ww_rule::{CellRows, State};

/// A box of cells.
#[derive(Drop)]
pub struct Board {
    pub width: u32,
    pub height: u32,
    pub rows: CellRows,
}

impl Board {
    /// Makes an empty board.
    pub fn new(alloc: Global, width: u32, height: u32) -> Result<Board, OutOfMemory> {
        Ok(Board {
            width,
            height,
            rows: CellRows::blank(alloc, width as usize, height as usize)?,
        })
    }

    /// Returns the state of a cell. Outside, cells are empty.
    pub fn state(&self, cell: (u32, u32)) -> State {
        match self.rows.row_or_none(cell.1 as usize).get(cell.0 as usize) {
            Some(state) => *state,
            None => State::Empty,
        }
    }

    /// Sets the state of a cell. Outside, nothing is set.
    pub fn put(&mut self, cell: (u32, u32), state: State) {
        let (x, y) = (cell.0 as usize, cell.1 as usize);
        if y < self.rows.len() && x < self.rows.row(y).len() {
            self.rows.put(x, y, state);
        }
    }

    /// Makes cells conductors.
    pub fn add_path(&mut self, path: &[(u32, u32)]) {
        for cell in path {
            self.put(*cell, State::Conductor);
        }
    }

    fn add_gate(&mut self, gate: DrawnGate, drawing: &GateDrawing) {
        let (mut x, mut y) = (0u32, 0u32);
        for state in drawing.cells.as_slice() {
            if *state != State::Empty {
                self.put((gate.x.saturating_add(x), gate.y.saturating_add(y)), *state);
            }
            x = x.saturating_add(1);
            if x == drawing.width {
                (x, y) = (0, y.saturating_add(1));
            }
        }
    }

    /// Draws gates.
    pub fn add_gates(&mut self, library: &GateLibrary, gates: &[DrawnGate]) {
        for gate in gates {
            self.add_gate(*gate, library.drawing(gate.kind));
        }
    }
}
