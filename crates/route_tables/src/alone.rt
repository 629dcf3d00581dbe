// Whether nothing stands beside wires but their paths.
ghost use Rattle.std.specs.Prelude.{◌≡◌, ◌⊎◌, ◌<◌, ◌≤◌, ◌+◌, ◌-ℤ◌, suc, pos, ℕ, length, IsTrue, IfOk, IfSome};
ghost use Rattle.route_tables.specs.Tables.{table_wire, wire_path, serial};
ghost use Rattle.route_tables.specs.Cells.{IsAlone};
ghost use Rattle.route_tables.specs.Around.{IsOneOf, ArePathSerials};

use crate::{CellFault, FaultWord, TableWire, Tables};

/// The serials of three cells of a path, one after the other, and the cell between the others.
#[derive(Clone, Copy)]
struct PathSerials {
    cell: (u32, u32),
    before: u32,
    here: u32,
    after: u32,
}

// The serials of three cells of a wire's path, from a place on.
fn path_serials(tables: &Tables, wire: TableWire, i: usize) -> Option<PathSerials>
    requires short { i < wire.size }
    ensures { IfSome result (ArePathSerials tables.now wire i) }
{
    let (Some(before), Some(here), Some(after)) = (
        tables.path_cell(wire, i),
        tables.path_cell(wire, i + 1),
        tables.path_cell(wire, i + 2),
    ) else {
        return None;
    };
    Some(PathSerials {
        cell: here,
        before: tables.serial(before),
        here: tables.serial(here),
        after: tables.serial(after),
    })
}

fn is_one_of(serials: PathSerials, serial: u32) -> bool
    ensures { IsTrue result → IsOneOf serials serial }
{
    serial == 0 || serial == serials.before || serial == serials.here || serial == serials.after
}

fn is_row_alone(tables: &Tables, serials: PathSerials, j: usize) -> bool
    requires near { j < 3 }
    ensures { IsTrue result → ((i : ℕ) → i < 3 → IsOneOf serials
        (serial tables.now (pos (serials.cell.0 + i) -ℤ pos 1, pos (serials.cell.1 + j) -ℤ pos 1))) }
{
    for i in 0..3 {
        let (x, y) = serials.cell;
        let serial = tables.serial_before(x as usize + i, y as usize + j);
        if !is_one_of(serials, serial) {
            return false;
        }
    }
    true
}

fn is_alone(tables: &Tables, wire: TableWire, i: usize) -> bool
    requires short { i < wire.size }
    ensures { IsTrue result → IsAlone tables.now wire i }
{
    let Some(serials) = path_serials(tables, wire, i) else {
        return false;
    };
    for j in 0..3 {
        if !is_row_alone(tables, serials, j) {
            return false;
        }
    }
    true
}

fn is_wire_alone(tables: &Tables, wire: TableWire) -> Result<(), CellFault>
    ensures { IfOk result (λ _. (i : ℕ) → i < wire.size → IsAlone tables.now wire i) }
{
    for i in 0..wire.size as usize {
        if !is_alone(tables, wire, i) {
            return Err(tables.fault_at_cell(FaultWord::Wire, wire.start as usize + i));
        }
    }
    Ok(())
}

/// Tests that beside each cell of a wire there are no others but the one before and the one after it
/// on the wire's path.
pub fn are_alone(tables: &Tables) -> Result<(), CellFault>
    ensures { IfOk result (λ _. (w : ℕ) → w < length tables.now.wires → (i : ℕ) →
        i < (table_wire tables.now w).size → IsAlone tables.now (table_wire tables.now w) i) }
{
    for w in 0..tables.wires.len() {
        let wire = tables.wire(w);
        is_wire_alone(tables, wire)?;
    }
    Ok(())
}
