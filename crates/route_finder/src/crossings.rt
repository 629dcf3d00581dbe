// Crossings whose second input is lit before the first are mirrored, where that is their own drawing.

use crate::times::Times;
use gate_library::{DrawnGate, DrawnPort, GatePort, Shape, Turn};

/// Returns whether a gate is such a crossing.
pub fn is_mirrored(times: &Times, gates: &[DrawnGate], gate: u32) -> bool {
    let (place, first) = (gate as usize, gate.saturating_mul(2));
    place < gates.len()
        && matches!(gates[place].kind.shape, Shape::Cross | Shape::TapTwice)
        && times.generation(first.saturating_add(1)) < times.generation(first)
}

/// Returns a turn, mirrored.
pub fn mirrored(turn: Turn) -> Turn {
    match turn {
        Turn::East => Turn::EastMirrored,
        Turn::EastMirrored => Turn::East,
        Turn::South => Turn::SouthMirrored,
        Turn::SouthMirrored => Turn::South,
        Turn::West => Turn::WestMirrored,
        Turn::WestMirrored => Turn::West,
        Turn::North => Turn::NorthMirrored,
        Turn::NorthMirrored => Turn::North,
    }
}

/// Returns a port after crossings have been mirrored: their inputs change places, and so do the outputs on their two
/// sides, which are numbered in pairs.
pub fn port_after(times: &Times, gates: &[DrawnGate], port: DrawnPort) -> DrawnPort {
    if !is_mirrored(times, gates, port.gate) {
        return port;
    }
    DrawnPort {
        gate: port.gate,
        port: match port.port {
            GatePort::In(i) => GatePort::In(i ^ 1),
            GatePort::Out(o) => GatePort::Out(o ^ 1),
        },
    }
}
