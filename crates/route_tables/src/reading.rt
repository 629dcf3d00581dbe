// What stands in the tables.
ghost use Rattle.std.specs.Prelude.{◌≡◌, ◌+◌, ◌<◌, ◌≤◌, ◌^◌, pos, ◌-ℤ◌, get_or, length, slice_get, IfSome};
ghost use Rattle.tile_timing.specs.Window.{shown};
ghost use Rattle.routed_circuits.specs.Runs.{src_at};
ghost use Rattle.gate_library.specs.Lawful.{port_in_cell};
ghost use Rattle.route_tables.specs.Serials.{serial_at};
ghost use Rattle.route_tables.specs.Tables.{sourced_by, gate_drawing, table_gate, table_wire, IsPort, input_port, point_at, wire_path, group, serial};
ghost use Rattle.route_tables.specs.Reading.{placed_at, IsGatePortAt, IsPortAt};

use crate::{Feed, GateInput, TableGate, TableWire, Tables};
use cell_core::Src;
use gate_library::{DrawnPort, GatePort, LawfulGate, PortCell};
use ww_rule::State;

/// Returns an input as a port.
pub fn input_port(at: GateInput) -> DrawnPort
    ensures { result ≡ input_port at }
{
    DrawnPort {
        gate: at.gate,
        port: GatePort::In(at.input),
    }
}

/// Returns the state at column x and row y of rows of `width` cells.
pub fn state_at(states: &[State], width: u32, x: u32, y: u32) -> State
    ensures { result ≡ shown states.now width (pos x) (pos y) }
{
    if x >= width {
        return State::Empty;
    }
    match states.get(y as usize * width as usize + x as usize) {
        Some(state) => *state,
        None => State::Empty,
    }
}

// The number in the table before column x and row y, which are counted from 1.
fn serial_before(serials: &[u32], width: u32, x: usize, y: usize) -> u32
    requires low { y ≤ 2 ^ 32 + 1 }
    ensures { result ≡ serial_at serials.now width (pos x -ℤ pos 1) (pos y -ℤ pos 1) }
{
    let width = width as usize;
    if x == 0 || y == 0 || x > width {
        return 0;
    }
    match serials.get((y - 1) * width + (x - 1)) {
        Some(serial) => *serial,
        None => 0,
    }
}

/// Returns the source at a place; past the end it is constant 0.
pub fn src_at(sources: &[Src], i: usize) -> Src
    ensures { result ≡ src_at sources.now i }
{
    if i < sources.len() {
        sources[i]
    } else {
        Src::Zero
    }
}

fn feed_at(feeds: &[Feed], i: usize) -> Option<Feed>
    ensures { result ≡ slice_get feeds.now i }
{
    if i < feeds.len() {
        Some(feeds[i])
    } else {
        None
    }
}

// A port of a drawing where its gate stands, if that is a cell that can be numbered.
fn placed(gate: &TableGate, port: PortCell) -> Option<PortCell>
    ensures { IfSome result (λ there. port_in_cell there ≡ placed_at gate.now port) }
{
    let (Some(x), Some(y)) = (port.x.checked_add(gate.x), port.y.checked_add(gate.y)) else {
        return None;
    };
    match u64::from(gate.first).checked_add(port.generation) {
        Some(generation) => Some(PortCell { x, y, generation }),
        None => None,
    }
}

fn input_of(gate: &TableGate, kind: &LawfulGate, i: u32) -> Option<PortCell>
    ensures { IfSome result (IsGatePortAt (sourced_by kind.now gate.now) (GatePort.In i)) }
{
    if i as usize >= gate.ins.len() {
        return None;
    }
    match kind.input(i, gate.later) {
        Some(port) => placed(gate, port),
        None => None,
    }
}

fn output_of(gate: &TableGate, kind: &LawfulGate, o: u32) -> Option<PortCell>
    ensures { IfSome result (IsGatePortAt (sourced_by kind.now gate.now) (GatePort.Out o)) }
{
    if o as usize >= gate.outs.len() {
        return None;
    }
    match kind.output(o, gate.later) {
        Some(port) => placed(gate, port),
        None => None,
    }
}

fn port_of(gate: &TableGate, kind: &LawfulGate, port: GatePort) -> Option<PortCell>
    ensures { IfSome result (IsGatePortAt (sourced_by kind.now gate.now) port) }
{
    match port {
        GatePort::In(i) => input_of(gate, kind, i),
        GatePort::Out(o) => output_of(gate, kind, o),
    }
}

impl Tables {
    /// Returns the gate of a number, if it is there.
    pub fn gate(&self, k: usize) -> Option<&TableGate>
        ensures { IfSome result (λ gate. (k < length self.now.gates)
            × (gate.now ≡ table_gate self.now k)) }
    {
        self.gates.as_slice().get(k)
    }

    /// Returns the kind of a gate, if it is there.
    pub fn kind(&self, gate: &TableGate) -> Option<&LawfulGate>
        ensures { IfSome result (λ kind. kind.now ≡ gate_drawing self.now gate.now) }
    {
        self.kinds.as_slice().get(gate.kind as usize)
    }

    /// Returns where a port stands and when it is lit first, if it is there and has a source.
    pub fn port(&self, at: DrawnPort) -> Option<PortCell>
        ensures { IfSome result (IsPortAt self.now at) }
    {
        let gate = self.gate(at.gate as usize)?;
        let kind = self.kind(gate)?;
        port_of(gate, kind, at.port)
    }

    /// Returns the source whose bits a port has; a port that is not there has constant 0.
    pub fn source(&self, at: DrawnPort) -> Src
        ensures { result ≡ (point_at self.now at).1 }
    {
        match self.gates.as_slice().get(at.gate as usize) {
            Some(gate) => match at.port {
                GatePort::In(i) => src_at(gate.ins.as_slice(), i as usize),
                GatePort::Out(o) => src_at(gate.outs.as_slice(), o as usize),
            },
            None => Src::Zero,
        }
    }

    /// Returns what feeds an input, if it is there.
    pub fn feed(&self, at: GateInput) -> Option<Feed>
        ensures { result ≡ slice_get (table_gate self.now at.gate).feeds at.input }
    {
        match self.gates.as_slice().get(at.gate as usize) {
            Some(gate) => feed_at(gate.feeds.as_slice(), at.input as usize),
            None => None,
        }
    }

    /// Returns the wire of a number.
    pub fn wire(&self, w: usize) -> TableWire
        ensures { result ≡ table_wire self.now w }
    {
        match self.wires.as_slice().get(w) {
            Some(wire) => *wire,
            None => TableWire {
                start: 0,
                size: 0,
                from: DrawnPort {
                    gate: 0,
                    port: GatePort::In(0),
                },
                to: GateInput { gate: 0, input: 0 },
                cycles: 0,
            },
        }
    }

    /// Returns the listed cell of a number.
    pub fn cell(&self, n: usize) -> (u32, u32)
        ensures { result ≡ get_or self.now.cells n (0, 0) }
    {
        let cells = self.cells.as_slice();
        if n < cells.len() { cells[n] } else { (0, 0) }
    }

    /// Returns the group of the listed cell of a number.
    pub fn group(&self, n: usize) -> u32
        ensures { result ≡ group self.now n }
    {
        let groups = self.groups.as_slice();
        if n < groups.len() { groups[n] } else { 0 }
    }

    /// Returns the serial at the column and the row before x and y, which are counted from 1.
    pub fn serial_before(&self, x: usize, y: usize) -> u32
        requires low { y ≤ 2 ^ 32 + 1 }
        ensures { result ≡ serial self.now (pos x -ℤ pos 1, pos y -ℤ pos 1) }
    {
        serial_before(self.serials.as_slice(), self.width, x, y)
    }

    /// Returns the serial of the listed cell at a column and a row, or 0.
    pub fn serial(&self, cell: (u32, u32)) -> u32
        ensures { result ≡ serial self.now (pos cell.0, pos cell.1) }
    {
        self.serial_before(cell.0 as usize + 1, cell.1 as usize + 1)
    }

    // The cell of a port, if it is there and has a source.
    fn port_cell(&self, at: DrawnPort) -> Option<(u32, u32)>
        ensures { IfSome result (λ cell. IsPort self.now at
            × ((pos cell.0, pos cell.1) ≡ (point_at self.now at).0.0)) }
    {
        match self.port(at) {
            Some(port) => Some((port.x, port.y)),
            None => None,
        }
    }

    /// Returns the cell of a wire's path at a place, if it is there: first that of the port, then
    /// the wire's own cells, and last that of the input.
    pub fn path_cell(&self, wire: TableWire, i: usize) -> Option<(u32, u32)>
        ensures { IfSome result (λ cell. (pos cell.0, pos cell.1) ≡ wire_path self.now wire i) }
    {
        if i == 0 {
            return self.port_cell(wire.from);
        }
        if i <= wire.size as usize {
            return Some(self.cell(wire.start as usize + (i - 1)));
        }
        self.port_cell(input_port(wire.to))
    }
}
