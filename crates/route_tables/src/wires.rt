// Whether the wires are drawn, and no more.
ghost use Rattle.std.specs.Prelude.{◌≡◌, ◌≢◌, ◌<◌, ◌≤◌, ◌+◌, suc, pos, ℕ, length, IsTrue, IfOk};
ghost use Rattle.gate_laws.specs.Wires.{IsNear};
ghost use Rattle.route_tables.specs.Tables.{table_wire, IsPort, point_at, input_port, input_point, wire_path, group};
ghost use Rattle.route_tables.specs.Cells.{IsWireThere, IsOnWire};

use crate::{CellFault, FaultWord, TableWire, Tables, input_port};

fn is_near(a: (u32, u32), b: (u32, u32)) -> bool
    ensures { IsTrue result → IsNear (pos a.0, pos a.1) (pos b.0, pos b.1) }
{
    let (x, y) = (u64::from(a.0), u64::from(a.1));
    let (u, v) = (u64::from(b.0), u64::from(b.1));
    x <= u + 1 && u <= x + 1 && y <= v + 1 && v <= y + 1
}

fn steps_on(tables: &Tables, wire: TableWire, i: usize) -> bool
    requires short { i ≤ wire.size }
    ensures { IsTrue result → IsNear (wire_path tables.now wire i)
        (wire_path tables.now wire (suc i)) }
{
    let Some(cell) = tables.path_cell(wire, i) else {
        return false;
    };
    let Some(next) = tables.path_cell(wire, i + 1) else {
        return false;
    };
    is_near(cell, next)
}

fn goes_on(tables: &Tables, wire: TableWire) -> Result<(), CellFault>
    ensures { IfOk result (λ _. (i : ℕ) → i ≤ wire.size →
        IsNear (wire_path tables.now wire i) (wire_path tables.now wire (suc i))) }
{
    let steps = wire.size as usize + 1;
    for i in 0..steps {
        if !steps_on(tables, wire, i) {
            let last = (wire.size as usize).saturating_sub(1);
            return Err(tables.fault_at_cell(FaultWord::Wire, wire.start as usize + i.min(last)));
        }
    }
    Ok(())
}

fn has_ends(tables: &Tables, wire: TableWire) -> bool
    ensures begins { IsTrue result → IsPort tables.now wire.from }
    ensures ends { IsTrue result → IsPort tables.now (input_port wire.to) }
    ensures two_ends { IsTrue result → (point_at tables.now wire.from).0.0
        ≢ (input_point tables.now wire.to).0.0 }
{
    match (tables.port(wire.from), tables.port(input_port(wire.to))) {
        (Some(from), Some(to)) => from.x != to.x || from.y != to.y,
        _ => false,
    }
}

fn is_grouped(tables: &Tables, wire: TableWire, w: usize) -> bool
    ensures { IsTrue result → ((i : ℕ) → i < wire.size →
        group tables.now (wire.start + i) ≡ length tables.now.gates + w) }
{
    let Some(group) = tables.gates.len().checked_add(w) else {
        return false;
    };
    for i in 0..wire.size as usize {
        if tables.group(wire.start as usize + i) as usize != group {
            return false;
        }
    }
    true
}

fn is_wire_there(tables: &Tables, w: usize, wire: TableWire) -> Result<(), CellFault>
    ensures { IfOk result (λ _. IsWireThere tables.now w wire) }
{
    if !has_ends(tables, wire) {
        return Err(tables.fault_at_wire(FaultWord::Wire, w));
    }
    if wire.size == 0 || tables.cells.len() < wire.start as usize + wire.size as usize {
        return Err(tables.fault_at_wire(FaultWord::Wire, w));
    }
    if !is_grouped(tables, wire, w) {
        return Err(tables.fault_at_wire(FaultWord::Wire, w));
    }
    goes_on(tables, wire)
}

/// Tests that each wire leads from a port to another cell, that of an input, and that its cells are
/// listed as the wire's, each beside the next.
pub fn are_wires_there(tables: &Tables) -> Result<(), CellFault>
    ensures { IfOk result (λ _. (w : ℕ) → w < length tables.now.wires →
        IsWireThere tables.now w (table_wire tables.now w)) }
{
    for w in 0..tables.wires.len() {
        let wire = tables.wire(w);
        is_wire_there(tables, w, wire)?;
    }
    Ok(())
}

fn is_on_wire(tables: &Tables, n: usize) -> bool
    ensures { IsTrue result → IsOnWire tables.now n }
{
    let group = tables.group(n) as usize;
    let gates = tables.gates.len();
    if group < gates {
        return true;
    }
    let wire = tables.wire(group - gates);
    let start = wire.start as usize;
    group - gates < tables.wires.len() && start <= n && n < start + wire.size as usize
}

/// Tests that each listed cell in a wire's group is one of the wire's.
pub fn are_on_wires(tables: &Tables) -> Result<(), CellFault>
    ensures { IfOk result (λ _. (n : ℕ) → n < length tables.now.cells → IsOnWire tables.now n) }
{
    for n in 0..tables.cells.len() {
        if !is_on_wire(tables, n) {
            return Err(tables.fault_at_cell(FaultWord::Wire, n));
        }
    }
    Ok(())
}
