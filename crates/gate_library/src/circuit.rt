// Drawings of routed circuits: gates, and the wires between them.

use crate::kind::GateKind;
use lists::List;

/// A gate in a box of cells. `x` and `y` are the column and the row of its drawing's north-west
/// corner. Its uses begin at generations `first`, `first` + period, .. The second input of a gate
/// whose signals come apart (`Shape::Cross` and its kin) is lit `later` generations after the
/// first; elsewhere `later` is 0.
#[derive(Clone, Copy)]
pub struct DrawnGate {
    pub kind: GateKind,
    pub x: u32,
    pub y: u32,
    pub first: u32,
    pub later: u32,
}

/// A port of a gate: one of its inputs or one of its outputs, by its number from 0.
#[derive(Clone, Copy)]
pub enum GatePort {
    In(u32),
    Out(u32),
}

/// A port of the gate with this number.
#[derive(Clone, Copy)]
pub struct DrawnPort {
    pub gate: u32,
    pub port: GatePort,
}

/// A wire from a port to the input `input` of the gate `gate`. Its own cells, without those of the
/// two ports, are `size` cells of the drawing's path from place `start` on. It is `cycles` periods
/// long: so many latches in a row, whose start bits are those of the drawing's `starts` from place
/// `latch` on. The first of these is the latch that reads the wire's source, and the last is the one
/// that the input reads.
#[derive(Clone, Copy)]
pub struct DrawnWire {
    pub from: DrawnPort,
    pub gate: u32,
    pub input: u32,
    pub start: u32,
    pub size: u32,
    pub latch: u32,
    pub cycles: u32,
}

/// A routed circuit in a box of `width` x `height` cells. `path` has the cells of all wires, one
/// wire after the other, as columns and rows. `ins` has the port of each input of the circuit, in
/// order, which is lit at generation 0; `outs` that of each output, all of which show their bits at
/// generation `latency`; and `nets` that of each net, or none for a net that is drawn nowhere.
#[derive(Drop)]
pub struct Drawing {
    pub width: u32,
    pub height: u32,
    pub period: u32,
    pub latency: u32,
    pub gates: List<DrawnGate>,
    pub wires: List<DrawnWire>,
    pub path: List<(u32, u32)>,
    pub starts: List<bool>,
    pub ins: List<DrawnPort>,
    pub outs: List<DrawnPort>,
    pub nets: List<Option<DrawnPort>>,
}
