// What a check of tables finds wrong.

use crate::Tables;

/// What is wrong with a drawing that is no routed circuit.
#[derive(Clone, Copy)]
pub enum FaultWord {
    /// A gate's drawing keeps no law, or cannot be used at the period.
    Kind,
    /// A cell of a gate is missing, or has an electron.
    Gate,
    /// Two gates are not two cells apart, or something is drawn that is no gate's and no wire's.
    Touches,
    /// A wire is not whole, or something stands beside it.
    Wire,
    /// A wire is not as long as its signals need.
    Length,
    /// A cell of a wire does not have the state of its start bits.
    Electron,
    /// An input is fed by nothing, or twice.
    Fed,
    /// The gates have no order, or an output's source is not the answer.
    Order,
    /// An input or an output of the table stands at no port of its time, or has a bad name; or no routed
    /// circuit has this table: it has several contexts, a period below 3, or a period or a latency that
    /// is too great for a search.
    Port,
    /// A net of the table stands at no port of its time.
    Net,
}

/// A fault, with a cell of the gate, the wire or the table's line that is at fault; column 0 and row 0 if it is the
/// table as a whole.
#[derive(Clone, Copy)]
pub struct CellFault {
    pub word: FaultWord,
    pub x: u32,
    pub y: u32,
}

impl Tables {
    /// Makes a fault at the listed cell of a number.
    pub fn fault_at_cell(&self, word: FaultWord, n: usize) -> CellFault {
        let (x, y) = self.cell(n);
        CellFault { word, x, y }
    }

    /// Makes a fault at the north-west corner of a gate.
    pub fn fault_at_gate(&self, word: FaultWord, k: usize) -> CellFault {
        match self.gate(k) {
            Some(gate) => CellFault {
                word,
                x: gate.x,
                y: gate.y,
            },
            None => CellFault { word, x: 0, y: 0 },
        }
    }

    /// Makes a fault at the first cell of a wire.
    pub fn fault_at_wire(&self, word: FaultWord, w: usize) -> CellFault {
        self.fault_at_cell(word, self.wire(w).start as usize)
    }
}
