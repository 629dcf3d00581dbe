// Whether the gates are drawn, and no more.
ghost use Rattle.std.specs.Prelude.{◌≡◌, ◌≢◌, ◌<◌, ◌≤◌, ◌⊎◌, ◌-ℤ◌, pos, ℕ, length, get_or, false, IsTrue, IfOk, IfSome};
ghost use Rattle.ww_rule.specs.declared.pattern.State.TheVariants.{Empty, Conductor};
ghost use Rattle.tile_timing.specs.Window.{shown};
ghost use Rattle.gate_laws.specs.Signals.{cell_state};
ghost use Rattle.routed_circuits.specs.Routed.{gate_plane};
ghost use Rattle.route_tables.specs.Serials.{listed_cell};
ghost use Rattle.route_tables.specs.Tables.{sourced_by, table_gate, gate_drawing, IsPort, input_port, input_point, box_plane, serial, group};
ghost use Rattle.route_tables.specs.Cells.{place_cell, IsFed, IsWireEnd, IsCellOfGate, HasCellsOfGate, IsGateThere, IsDrawnInGate};
ghost use Rattle.route_tables.specs.declared.tables.Feed.TheVariants.{Wire};

use crate::{CellFault, FaultWord, Feed, GateInput, TableGate, Tables, input_port, state_at};
use gate_library::GateDrawing;
use ww_rule::State;

// The cell of a box at a place of a gate's drawing.
fn place_cell(gate: &TableGate, drawing: &GateDrawing, m: usize) -> Option<(u32, u32)>
    ensures { IfSome result (λ cell. (pos cell.0, pos cell.1) ≡ place_cell gate.now drawing.now m) }
{
    let width = drawing.width as usize;
    if width == 0 {
        return None;
    }
    let x = u32::try_from(u128::from(gate.x) + (m % width) as u128);
    let y = u32::try_from(u128::from(gate.y) + (m / width) as u128);
    match (x, y) {
        (Ok(x), Ok(y)) => Some((x, y)),
        _ => None,
    }
}

fn is_end_at(tables: &Tables, at: GateInput, cell: (u32, u32)) -> bool
    ensures { IsTrue result → IsWireEnd tables.now at.gate (pos cell.0, pos cell.1) }
{
    match (tables.feed(at), tables.port(input_port(at))) {
        (Some(Feed::Wire(_)), Some(there)) => there.x == cell.0 && there.y == cell.1,
        _ => false,
    }
}

// A gate has at most so many inputs.
const MOST_INPUTS: u32 = 3;

// Whether the cell is a conductor, or an input of the gate that a wire feeds.
fn is_calm_or_end(tables: &Tables, states: &[State], k: u32, cell: (u32, u32)) -> bool
    ensures { IsTrue result
        → ((cell_state (box_plane tables.now states.now) (pos cell.0, pos cell.1) ≡ Conductor)
        ⊎ IsWireEnd tables.now k (pos cell.0, pos cell.1)) }
{
    if state_at(states, tables.width, cell.0, cell.1) == State::Conductor {
        return true;
    }
    for input in 0..MOST_INPUTS {
        if is_end_at(tables, GateInput { gate: k, input }, cell) {
            return true;
        }
    }
    false
}

fn is_cell_of_gate(tables: &Tables, states: &[State], k: u32, cell: (u32, u32)) -> bool
    ensures { IsTrue result → IsCellOfGate tables.now states.now k (pos cell.0, pos cell.1) }
{
    let serial = tables.serial(cell);
    if serial == 0 {
        return false;
    }
    if tables.group(serial as usize - 1) != k {
        return false;
    }
    is_calm_or_end(tables, states, k, cell)
}

/// Returns whether a cell is empty.
pub fn is_empty(state: State) -> bool
    ensures full { result ≡ false → state ≢ Empty }
    ensures empty { IsTrue result → state ≡ Empty }
{
    match state {
        State::Empty => true,
        State::Head | State::Tail | State::Conductor => false,
    }
}

fn has_place(
    tables: &Tables,
    states: &[State],
    k: u32,
    gate: &TableGate,
    drawing: &GateDrawing,
    m: usize,
) -> bool
    requires inside { m < length drawing.now.cells }
    ensures { IsTrue result → get_or drawing.now.cells m Empty ≢ Empty →
        IsCellOfGate tables.now states.now k (place_cell gate.now drawing.now m) }
{
    if is_empty(drawing.cells.as_slice()[m]) {
        return true;
    }
    match place_cell(gate, drawing, m) {
        Some(cell) => is_cell_of_gate(tables, states, k, cell),
        None => false,
    }
}

fn has_cells(
    tables: &Tables,
    states: &[State],
    k: u32,
    gate: &TableGate,
    drawing: &GateDrawing,
) -> bool
    ensures { IsTrue result → HasCellsOfGate tables.now states.now k gate.now drawing.now }
{
    for m in 0..drawing.cells.len() {
        if !has_place(tables, states, k, gate, drawing, m) {
            return false;
        }
    }
    true
}

fn is_gate_there(tables: &Tables, states: &[State], k: usize) -> bool
    ensures { IsTrue result → IsGateThere tables.now states.now k }
{
    let Ok(number) = u32::try_from(k) else {
        return false;
    };
    let Some(gate) = tables.gate(k) else {
        return false;
    };
    let Some(kind) = tables.kind(gate) else {
        return false;
    };
    has_cells(tables, states, number, gate, kind.drawing())
}

/// Tests that each cell of each gate's drawing is listed as one of the gate, and is a conductor, or
/// an input that a wire feeds.
pub fn are_gates_there(tables: &Tables, states: &[State]) -> Result<(), CellFault>
    ensures { IfOk result (λ _. (k : ℕ) → k < length tables.now.gates →
        IsGateThere tables.now states.now k) }
{
    for k in 0..tables.gates.len() {
        if !is_gate_there(tables, states, k) {
            return Err(tables.fault_at_gate(FaultWord::Gate, k));
        }
    }
    Ok(())
}

fn is_drawn_in(gate: &TableGate, drawing: &GateDrawing, cell: (u32, u32)) -> bool
    ensures { IsTrue result → cell_state (gate_plane (sourced_by drawing.now gate.now).placed)
        (pos cell.0, pos cell.1) ≢ Empty }
{
    if cell.0 < gate.x || cell.1 < gate.y {
        return false;
    }
    let (x, y) = (cell.0 - gate.x, cell.1 - gate.y);
    if is_empty(state_at(drawing.cells.as_slice(), drawing.width, x, y)) {
        return false;
    }
    true
}

fn is_in_gate(tables: &Tables, n: usize) -> bool
    ensures { IsTrue result → IsDrawnInGate tables.now n }
{
    let k = tables.group(n) as usize;
    if tables.gates.len() <= k {
        return true;
    }
    let Some(gate) = tables.gate(k) else {
        return false;
    };
    let Some(kind) = tables.kind(gate) else {
        return false;
    };
    is_drawn_in(gate, kind.drawing(), tables.cell(n))
}

/// Tests that each listed cell in a gate's group is drawn in the gate.
pub fn are_in_gates(tables: &Tables) -> Result<(), CellFault>
    ensures { IfOk result (λ _. (n : ℕ) → n < length tables.now.cells →
        IsDrawnInGate tables.now n) }
{
    for n in 0..tables.cells.len() {
        if !is_in_gate(tables, n) {
            return Err(tables.fault_at_cell(FaultWord::Gate, n));
        }
    }
    Ok(())
}
