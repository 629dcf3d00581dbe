// Why no gates and wires are found.

/// What is at fault at a cell.
#[derive(Clone, Copy)]
pub enum DrawingFault {
    /// A gate's cell is missing, or a cell is beside a gate that does not belong there.
    Gate,
    /// A wire has a third cell beside one of its cells, or leads nowhere.
    Wire,
    /// An input or an output of the port table is at no cell of a wire and at no port of a gate.
    Port,
}

/// The reason why `find` has found no drawing.
#[derive(Clone, Copy)]
pub enum FindError {
    /// The cell in column x and row y is at fault.
    Fault { kind: DrawingFault, x: u32, y: u32 },
    /// A side of the box is 2^32 or more, or the period or the latency is over 2^31.
    TooLarge,
    /// Memory runs out.
    NoMemory,
}

impl FindError {
    /// Returns the error that this is at fault at a cell.
    pub fn at(kind: DrawingFault, cell: (u32, u32)) -> FindError {
        FindError::Fault {
            kind,
            x: cell.0,
            y: cell.1,
        }
    }
}
