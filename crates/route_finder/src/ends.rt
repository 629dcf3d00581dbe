// The ends of wires.

use crate::wires::End;
use gate_library::{Answer, DrawnPort, GateDrawing, GatePort, Timing};
use route_lines::Board;

// The input of a port, which is that which an output copies, and how long after a time it is lit.
fn input_and_delay(drawing: &GateDrawing, port: GatePort) -> (u32, u32) {
    match port {
        GatePort::In(input) => {
            let (ins, place) = (drawing.ins.as_slice(), input as usize);
            let is_there = place < ins.len();
            (input, if is_there { ins[place].generation } else { 0 })
        }
        GatePort::Out(output) => {
            let (answers, outs) = (drawing.answers.as_slice(), drawing.outs.as_slice());
            let place = output as usize;
            if place >= answers.len() || place >= outs.len() {
                return (0, 0);
            }
            let input = match answers[place] {
                Answer::Copy(input) => input,
                _ => 0,
            };
            (input, outs[place].delay)
        }
    }
}

/// Returns the end of a wire at a port. A gate whose inputs come together has one time, which is the beginning of its
/// uses, and one whose inputs come apart has that of each input.
pub fn end_at(board: &Board, port: DrawnPort) -> End {
    let first = port.gate.saturating_mul(2);
    let mut end = End {
        port,
        input: match port.port {
            GatePort::In(input) => first.saturating_add(input),
            GatePort::Out(_) => u32::MAX,
        },
        time: first,
        after: 0,
        next: u32::MAX,
    };
    let place = port.gate as usize;
    if place < board.gates.len() {
        let drawing = board.library.drawing(board.gates[place].kind);
        let (input, after) = input_and_delay(drawing, port.port);
        end.after = after;
        if let Timing::Apart = drawing.timing {
            end.time = first.saturating_add(input);
        }
    }
    end
}
