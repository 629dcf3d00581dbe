// Rings: the constant 1 of circuits without registers.
//
// West of a circuit is a fork whose lower signal comes back to it around the ring. The upper one is constant 1.

use crate::gates::{Gates, output_port};
use crate::loops::{cells_of, late_of};
use gate_library::{DrawnGate, DrawnPort, GateKind, Shape, Turn};
use strand_core::{Layout, StrandCircuit, West, add};

// Generations in which a signal comes around the smallest ring.
const LEAST: u32 = 11;

// Columns from the westernmost one of the smallest ring to the circuit.
const COLUMNS: u32 = 7;

// Rows from that of the fork's upper signal to the southernmost one of the ring.
const ROWS: u32 = 6;

// Generations from the fork's entry to the beginning of the circuit, but for the lateness there.
const AHEAD: u32 = 5;

/// A ring whose fork's upper signal runs on in a strand, which begins in this row of the circuit and is so many
/// generations late. In `cycles` periods an electron comes around it, `more` generations later than around the smallest.
#[derive(Clone, Copy)]
pub struct Ring {
    pub strand: u32,
    pub late: u32,
    pub cycles: u32,
    row: u32,
    period: u32,
    more: u32,
}

/// Returns the ring of a circuit, if its constant 1 comes from one.
pub fn ring_of(circuit: &StrandCircuit, layout: &Layout, period: u32) -> Option<Ring> {
    for end in &circuit.west {
        if let (Some(strand), West::One) = (end.strand, end.is) {
            let (_, row) = cells_of(layout, strand).first().copied()?;
            let cycles = LEAST.div_ceil(period.max(1));
            return Some(Ring {
                strand,
                late: late_of(circuit, end.strand),
                cycles,
                row,
                period,
                more: cycles.saturating_mul(period).saturating_sub(LEAST),
            });
        }
    }
    None
}

impl Ring {
    /// Returns how many columns the ring takes west of the circuit.
    pub fn columns(self) -> u32 {
        (self.more / 2)
            .saturating_add(self.late)
            .saturating_add(COLUMNS)
    }

    /// Returns how many rows a box has at least in which the ring lies beside a circuit.
    pub fn rows(self, north: u32) -> u32 {
        self.y(north).saturating_add(ROWS).saturating_add(1)
    }

    // The column of the fork.
    fn x(self) -> u32 {
        (self.more / 2).saturating_add(2)
    }

    // The row of the fork, and of its upper signal.
    fn y(self, north: u32) -> u32 {
        north.saturating_add(self.row)
    }

    /// Adds the fork, and returns its ports: the upper output, from which constant 1 runs on, and the lower one.
    pub fn add_fork(self, gates: &mut Gates, north: u32) -> (DrawnPort, DrawnPort) {
        let gate = gates.next();
        let kind = GateKind {
            shape: Shape::Fork,
            turn: Turn::East,
        };
        gates.add(DrawnGate {
            kind,
            x: self.x(),
            y: self.y(north),
            first: self.period.saturating_sub(AHEAD),
            later: 0,
        });
        (output_port(gate, 0), output_port(gate, 1))
    }

    /// Adds the cells between the fork's upper output and the circuit. Notes if memory is refused.
    pub fn add_lead(self, path: &mut Vec<(u32, u32)>, north: u32, is_refused: &mut bool) {
        for x in self.x().saturating_add(3)..self.columns() {
            add(path, (x, self.y(north)), is_refused);
        }
    }

    // A cell of the ring by its number, from the fork's lower output to its entry: the column, and how many rows it is
    // below the fork's upper signal. The ring goes west in its southernmost row, north in column 0, and then east.
    fn cell(self, number: u32) -> (u32, u32) {
        let (east, odd) = (self.x().saturating_add(2), self.more % 2);
        let corner = odd.saturating_add(ROWS - 1);
        match number.checked_sub(east) {
            None if number == 0 => (east.saturating_add(1), ROWS - 1),
            None => (east.saturating_add(1).saturating_sub(number), ROWS),
            Some(0) => (1, corner),
            Some(turned) => (
                turned.saturating_sub(odd.saturating_add(2)),
                corner.saturating_sub(turned).max(2),
            ),
        }
    }

    /// Adds the cells of the ring, from the fork's lower output to its entry. Notes if memory is refused.
    pub fn add_ring(self, path: &mut Vec<(u32, u32)>, north: u32, is_refused: &mut bool) {
        let half = self.x().saturating_add(2);
        let size = half.saturating_add(half).saturating_add(self.more % 2);
        for number in 0..size {
            let (x, below) = self.cell(number);
            add(path, (x, self.y(north).saturating_add(below)), is_refused);
        }
    }
}
