// The lines of the port table.
ghost use Rattle.std.specs.Prelude.{◌≡◌, ◌≤◌, ℕ, Some, length, slice_get, IfOk, IsTrue};
ghost use Rattle.pattern_reading.specs.declared.ports.PortLine.{PortLine};
ghost use Rattle.pattern_reading.specs.declared.ports.NetLine.{NetLine};
ghost use Rattle.routed_circuits.specs.Runs.{src_at};
ghost use Rattle.route_tables.specs.declared.tables.GateInput.{GateInput};
ghost use Rattle.route_tables.specs.Checked.{HasItsPorts};
ghost use Rattle.route_tables.specs.Runs.{IsInput, IsDark, ShowsAt};
ghost use Rattle.route_cells.specs.Lines.{IsConductorAt, IsPointAt};

use crate::electrons::is_same;
use cell_core::{Src, is_same_src};
use gate_library::DrawnPort;
use pattern_reading::{NetLine, PortLine, Ports};
use route_tables::{CellFault, FaultWord, Tables, input_port, src_at, state_at};
use ww_rule::State;

// A fault at the cell of a line.
fn fault_at(word: FaultWord, x: u64, y: u64) -> CellFault {
    CellFault {
        word,
        x: u32::try_from(x).unwrap_or(u32::MAX),
        y: u32::try_from(y).unwrap_or(u32::MAX),
    }
}

// Whether a port is lit first at this cell and generation, and has this source.
fn is_point(t: &Tables, at: DrawnPort, x: u64, y: u64, first: u64, source: Src) -> bool
    ensures { IsTrue result → IsPointAt t.now at x y first source }
{
    match t.port(at) {
        Some(port) => {
            u64::from(port.x) == x
                && u64::from(port.y) == y
                && port.generation == first
                && is_same_src(t.source(at), source)
        }
        None => false,
    }
}

// Whether the cell of a line is a conductor.
fn is_dark_cell(t: &Tables, states: &[State], line: &PortLine) -> bool
    ensures { IsTrue result → IsConductorAt t.now states.now line.now }
{
    match (u32::try_from(line.x), u32::try_from(line.y)) {
        (Ok(x), Ok(y)) => is_same(state_at(states, t.width, x, y), State::Conductor),
        _ => false,
    }
}

// Whether the driven input of this number is that of the line.
fn is_input(t: &Tables, states: &[State], i: usize, line: &PortLine) -> bool
    ensures { IsTrue result → IsInput t.now states.now i line.now }
{
    let Ok(number) = u32::try_from(i) else {
        return false;
    };
    if i >= t.driven.len() {
        return false;
    }
    let at = input_port(*t.driven.get(i));
    if !is_point(t, at, line.x, line.y, 0, Src::Input(number)) {
        return false;
    }
    is_dark_cell(t, states, line)
}

/// Tests that the IN lines stand at the first driven inputs, in order.
pub fn test_inputs(t: &Tables, states: &[State], lines: &[PortLine]) -> Result<(), CellFault>
    ensures { IfOk result (λ _. (i : ℕ) (line : PortLine) → slice_get lines.now i ≡ Some line
        → IsInput t.now states.now i line) }
{
    for (i, line) in lines.iter().enumerate() {
        if !is_input(t, states, i, line) {
            return Err(fault_at(FaultWord::Port, line.x, line.y));
        }
    }
    Ok(())
}

/// Tests that the driven inputs from this number on are constant 0.
pub fn test_dark(t: &Tables, from: usize) -> Result<(), CellFault>
    ensures { IfOk result (λ _. (d : ℕ) (at : GateInput) → from ≤ d
        → slice_get t.now.driven d ≡ Some at → IsDark t.now at) }
{
    for d in from..t.driven.len() {
        let at = *t.driven.get(d);
        if !is_same_src(t.source(input_port(at)), Src::Zero) {
            return Err(t.fault_at_gate(FaultWord::Fed, at.gate as usize));
        }
    }
    Ok(())
}

// Whether the port of a number shows a source at this cell, at this generation first.
fn shows_at(
    t: &Tables,
    ports: &[DrawnPort],
    i: usize,
    x: u64,
    y: u64,
    first: u64,
    source: Src,
) -> bool
    ensures { IsTrue result → ShowsAt t.now ports.now i x y first source }
{
    match ports.get(i) {
        Some(at) => is_point(t, *at, x, y, first, source),
        None => false,
    }
}

/// Tests that the OUT lines stand at the outputs' ports, which all show their sources at the latency.
pub fn test_outputs(t: &Tables, latency: u64, lines: &[PortLine]) -> Result<(), CellFault>
    ensures { IfOk result (λ _. (o : ℕ) (line : PortLine) → slice_get lines.now o ≡ Some line
        → ShowsAt t.now t.now.outs o line.x line.y latency (src_at t.now.list.outs o)) }
{
    for (o, line) in lines.iter().enumerate() {
        let source = src_at(t.list.outs.as_slice(), o);
        if !shows_at(t, t.outs.as_slice(), o, line.x, line.y, latency, source) {
            return Err(fault_at(FaultWord::Port, line.x, line.y));
        }
    }
    Ok(())
}

/// Tests that the NET lines stand at the nets' ports, which show their sources at the lines' offsets.
pub fn test_nets(t: &Tables, lines: &[NetLine]) -> Result<(), CellFault>
    ensures { IfOk result (λ _. (n : ℕ) (line : NetLine) → slice_get lines.now n ≡ Some line
        → ShowsAt t.now t.now.nets n line.x line.y line.offset (src_at t.now.list.nets n)) }
{
    for (n, line) in lines.iter().enumerate() {
        let source = src_at(t.list.nets.as_slice(), n);
        if !shows_at(t, t.nets.as_slice(), n, line.x, line.y, line.offset, source) {
            return Err(fault_at(FaultWord::Net, line.x, line.y));
        }
    }
    Ok(())
}

/// Tests that the lines of the port table stand at ports: IN lines at the first driven inputs, OUT
/// lines at the latency, NET lines at their offsets.
pub fn test_lines(t: &Tables, states: &[State], ports: &Ports) -> Result<(), CellFault>
    ensures { IfOk result (λ _. HasItsPorts t.now states.now ports.now) }
{
    let ins = ports.ins.as_slice();
    let outs = ports.outs.as_slice();
    let nets = ports.nets.as_slice();
    test_inputs(t, states, ins)?;
    test_dark(t, ports.ins.len())?;
    test_outputs(t, ports.l, outs)?;
    test_nets(t, nets)
}
