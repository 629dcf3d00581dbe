// The lines that name the gates and the wires of a routed circuit.
ghost use Rattle.std.specs.Prelude.{IfOk};
ghost use Rattle.route_lines.specs.GateLines.{AreGateLines};

use gate_library::Drawing;
use lists::{Bytes, List, OutOfMemory};
use route_lines::{are_gate_lines, gate_lines};
use std::alloc::Global;

// More bytes of lines are left out, so that the text of a very large circuit is not too long to be read.
const MOST_BYTES: usize = 8_388_608;

/// Returns the lines that name the gates and the wires of a drawing, or none if they have too many
/// bytes, or if a test finds other lines.
pub fn lines_of_drawing(alloc: Global, drawing: &Drawing) -> Result<Bytes, OutOfMemory>
    ensures { IfOk result AreGateLines }
{
    let lines = gate_lines(alloc, drawing)?;
    if lines.len() <= MOST_BYTES && are_gate_lines(lines.as_slice()) {
        Ok(lines)
    } else {
        Ok(List::of(Vec::new(alloc)))
    }
}
