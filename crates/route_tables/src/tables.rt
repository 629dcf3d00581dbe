// Tables of a routed circuit.

use cell_core::{CellList, Src};
use gate_library::{DrawnPort, LawfulGate};
use lists::List;

/// The input of this number of the gate of this number.
#[derive(Clone, Copy)]
pub struct GateInput {
    pub gate: u32,
    pub input: u32,
}

/// What an input of a gate is fed by: the wire of this number, or the drive of this number.
#[derive(Clone, Copy)]
pub enum Feed {
    Wire(u32),
    Driven(u32),
}

/// A gate in a box of cells: its kind, the column and the row of its drawing's north-west corner,
/// the generation of its first use, and how much later its second input is lit, if its inputs are
/// lit apart. `ins` and `outs` are the sources whose bits its inputs and its outputs have, and
/// `feeds` what feeds its inputs.
#[derive(Drop)]
pub struct TableGate {
    pub kind: u32,
    pub x: u32,
    pub y: u32,
    pub first: u32,
    pub later: u32,
    pub ins: List<Src>,
    pub outs: List<Src>,
    pub feeds: List<Feed>,
}

/// A wire from a port to an input. Its own cells are the `size` listed cells from number `start` on;
/// it is `cycles` periods long.
#[derive(Clone, Copy)]
pub struct TableWire {
    pub start: u32,
    pub size: u32,
    pub from: DrawnPort,
    pub to: GateInput,
    pub cycles: u32,
}

/// A routed circuit in a box of cells that is `width` cells wide. `driven` has the inputs that no
/// wire feeds: first that of each input of the circuit, in order, then those that stay dark.
/// `cells` lists all cells of gates and wires by column and row. `groups` says whose each of them
/// is: below the number of gates this is the gate's number, and from there on the wire's is added.
/// `serials` has for each cell of the box, row by row, the serial of the listed cell that is there: its
/// number, counted from 1, or 0 where none is. `list` is the list of cells that the circuit computes, and `outs` and `nets` are the
/// ports of its outputs and nets.
#[derive(Drop)]
pub struct Tables {
    pub width: u32,
    pub kinds: List<LawfulGate>,
    pub gates: List<TableGate>,
    pub wires: List<TableWire>,
    pub driven: List<GateInput>,
    pub cells: List<(u32, u32)>,
    pub groups: List<u32>,
    pub serials: List<u32>,
    pub list: CellList,
    pub outs: List<DrawnPort>,
    pub nets: List<DrawnPort>,
}
