// A pattern's cells and its gates, with the wires between these.

use crate::owners::{Owner, Owners};
use crate::table::{LineKind, TableCell, add_table};
use gate_library::{Drawing, DrawnGate, DrawnPort, DrawnWire, GateLibrary, GatePort, Shape};
use lists::{List, OutOfMemory};
use pattern_reading::Ports;
use std::alloc::Global;
use ww_rule::Pattern;

/// The wires of a drawing with their start bits; and the cells of the port table, and the ports of the inputs, outputs
/// and nets that are at these. It is noted whether memory ran out.
#[derive(Drop)]
pub struct Wiring {
    pub table: Vec<TableCell>,
    pub wires: Vec<DrawnWire>,
    pub starts: Vec<bool>,
    ins: Vec<DrawnPort>,
    outs: Vec<DrawnPort>,
    nets: Vec<Option<DrawnPort>>,
    pub is_short: bool,
}

/// The cells of a box with what each belongs to, its gates, and the cells of its wires. It is noted whether memory ran
/// out.
#[derive(Drop)]
pub struct Board {
    pub owners: Owners,
    height: u32,
    pub period: u32,
    latency: u32,
    pub library: GateLibrary,
    pub gates: Vec<DrawnGate>,
    pub path: Vec<(u32, u32)>,
    pub is_short: bool,
}

/// Returns a number as one of 32 bits, or the greatest of these.
pub fn small(number: usize) -> u32 {
    u32::try_from(number).unwrap_or(u32::MAX)
}

/// Returns so many items from a place on, or none if there are fewer.
pub fn part_of<T>(items: &[T], start: u32, size: u32) -> &[T] {
    let begin = start as usize;
    let end = begin.saturating_add(size as usize);
    if begin <= end && end <= items.len() {
        &items[begin..end]
    } else {
        &[]
    }
}

impl Wiring {
    /// Makes one with the cells of a port table, and with no wires and no ports.
    pub fn of(alloc: Global, ports: &Ports) -> Wiring {
        let mut table = Vec::new(alloc);
        let is_short = add_table(&mut table, ports);
        Wiring {
            table,
            wires: Vec::new(alloc),
            starts: Vec::new(alloc),
            ins: Vec::new(alloc),
            outs: Vec::new(alloc),
            nets: Vec::new(alloc),
            is_short,
        }
    }

    // Adds the port of a line, and answers whether it is there, or that of a net.
    fn add_port(&mut self, kind: LineKind, port: Option<DrawnPort>) -> bool {
        self.is_short |= match (kind, port) {
            (LineKind::In, Some(port)) => self.ins.push(port).is_err(),
            (LineKind::Out, Some(port)) => self.outs.push(port).is_err(),
            (LineKind::Net, port) => self.nets.push(port).is_err(),
            _ => return false,
        };
        true
    }

    /// Adds the ports at the cells of the port table, and answers whether each input and each output is at one.
    pub fn add_ports(&mut self, board: &Board) -> bool {
        let mut are_there = true;
        for place in 0..self.table.len() {
            if place < self.table.len() {
                let line = self.table[place];
                are_there &= self.add_port(line.kind, board.port_at(line.cell));
            }
        }
        are_there
    }
}

impl Board {
    /// Makes the board of a pattern, of whose drawn cells all are open, or `None` if a side of its box, the period or
    /// the latency is 2^32 or more.
    pub fn new(
        alloc: Global,
        pattern: &Pattern,
        ports: &Ports,
    ) -> Result<Option<Board>, OutOfMemory> {
        let (Ok(width), Ok(height), Ok(period), Ok(latency)) = (
            u32::try_from(pattern.width),
            u32::try_from(pattern.height),
            u32::try_from(ports.p),
            u32::try_from(ports.l),
        ) else {
            return Ok(None);
        };
        let library = GateLibrary::new(alloc)?;
        let mut owners = Owners::new(alloc, width);
        let is_short = owners.add_cells(pattern);
        Ok(Some(Board {
            owners,
            height,
            period,
            latency,
            library,
            gates: Vec::new(alloc),
            path: Vec::new(alloc),
            is_short,
        }))
    }

    // Gives the cells of a gate's drawing to the gate, which has this number.
    fn draw(&mut self, gate: DrawnGate, number: u32) {
        if let Shape::Lone = gate.kind.shape {
            self.owners.give((gate.x, gate.y), Owner::Lone(number));
        } else {
            let drawing = self.library.drawing(gate.kind);
            self.owners.draw(drawing, gate, number);
        }
    }

    /// Adds a gate, to which the cells of its drawing go.
    pub fn add_gate(&mut self, gate: DrawnGate) {
        let number = small(self.gates.len());
        self.draw(gate, number);
        self.is_short |= self.gates.push(gate).is_err();
    }

    /// Puts a gate that has the same cells, but maybe other ports at them, in place of the one with this number.
    pub fn put_gate(&mut self, gate: DrawnGate, number: u32) {
        self.draw(gate, number);
        let place = number as usize;
        if place < self.gates.len() {
            self.gates[place] = gate;
        }
    }

    /// Returns the port of a gate at a cell. Of a lone cell, which is both, it is the input.
    pub fn port_at(&self, cell: (u32, u32)) -> Option<DrawnPort> {
        let (gate, port) = match self.owners.of(cell) {
            Owner::Lone(gate) => (gate, GatePort::In(0)),
            Owner::In { gate, input } => (gate, GatePort::In(u32::from(input))),
            Owner::Out { gate, output } => (gate, GatePort::Out(u32::from(output))),
            _ => return None,
        };
        Some(DrawnPort { gate, port })
    }

    /// Follows a wire from its first cell, which is open and beside the cell `before`. Its cells are given to it and
    /// are added to the path. Returns the cell of a gate to which it leads, or else its last cell.
    pub fn trace(&mut self, before: (u32, u32), first: (u32, u32)) -> (u32, u32) {
        let (end, is_short) = self.owners.trace(&mut self.path, before, first);
        self.is_short |= is_short;
        end
    }

    /// Puts the drawing together if it is wanted, unless memory ran out.
    pub fn into_drawing(
        self,
        wiring: Wiring,
        is_wanted: bool,
    ) -> Result<Option<Drawing>, OutOfMemory> {
        let is_short = self.is_short || wiring.is_short;
        if is_wanted && !is_short {
            return Ok(Some(self.drawing(wiring)));
        }
        drop(wiring);
        drop(self);
        if is_short {
            Err(OutOfMemory::NoMemory)
        } else {
            Ok(None)
        }
    }

    // Puts the drawing together.
    fn drawing(self, wiring: Wiring) -> Drawing {
        Drawing {
            width: self.owners.width,
            height: self.height,
            period: self.period,
            latency: self.latency,
            gates: List::of(self.gates),
            wires: List::of(wiring.wires),
            path: List::of(self.path),
            starts: List::of(wiring.starts),
            ins: List::of(wiring.ins),
            outs: List::of(wiring.outs),
            nets: List::of(wiring.nets),
        }
    }
}
