// The cells of gates' ports.

use gate_library::{DrawnGate, DrawnPort, GateLibrary, GatePort};

/// Returns the cell of a port of one of these gates, by its column and its row in the box.
pub fn port_cell(
    library: &GateLibrary,
    gates: &[DrawnGate],
    port: DrawnPort,
) -> Option<(u32, u32)> {
    let number = port.gate as usize;
    if number >= gates.len() {
        return None;
    }
    let gate = gates[number];
    let drawing = library.drawing(gate.kind);
    let (ins, outs) = (drawing.ins.as_slice(), drawing.outs.as_slice());
    let (x, y) = match port.port {
        GatePort::In(input) if (input as usize) < ins.len() => {
            let cell = ins[input as usize];
            (cell.x, cell.y)
        }
        GatePort::Out(output) if (output as usize) < outs.len() => {
            let cell = outs[output as usize];
            (cell.x, cell.y)
        }
        _ => return None,
    };
    Some((gate.x.saturating_add(x), gate.y.saturating_add(y)))
}
