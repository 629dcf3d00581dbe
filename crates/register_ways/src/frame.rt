// Where a circuit lies among the wires around it.

/// Rows or columns from a wire to the next one.
pub const APART: u32 = 2;

/// A circuit of `width` x `height` cells. If its outputs stand together, `gap` wires leave it north of them.
#[derive(Clone, Copy)]
pub struct Circuit {
    pub width: u32,
    pub height: u32,
    pub gap: Option<usize>,
}

/// A register's wire: the row in which it leaves the circuit's last column, and the one in which it comes back to column
/// 0. It takes as many periods as it has latches, `cycles`, less `lag` generations.
#[derive(Clone, Copy)]
pub struct Loop {
    pub exit: u32,
    pub entry: u32,
    pub cycles: u32,
    pub lag: u32,
}

/// A circuit with room for `lanes` wires beside each other at its east and at its west. A place along a bundle is counted
/// from the easternmost column.
#[derive(Clone, Copy)]
pub struct Frame {
    pub circuit: Circuit,
    pub lanes: u32,
}

impl Frame {
    /// Returns the place of the circuit's last column.
    pub fn east(self) -> u32 {
        self.lanes.saturating_mul(APART)
    }

    /// Returns the place of the circuit's column 0.
    pub fn west(self) -> u32 {
        self.east()
            .saturating_add(self.circuit.width)
            .saturating_sub(1)
    }

    /// Returns the place of the westernmost column.
    pub fn last(self) -> u32 {
        self.west().saturating_add(self.lanes.saturating_mul(APART))
    }
}

/// The side of a circuit around which wires lead.
#[derive(Clone, Copy)]
pub enum Side {
    North,
    South,
}
