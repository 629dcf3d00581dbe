// Whether each cell of the box is one listed cell, or empty, and gates stand apart.
ghost use Rattle.std.specs.Prelude.{◌≡◌, ◌<◌, ◌≤◌, ◌+◌, ◌^◌, ◌-ℤ◌, pos, ℕ, length, get_or, IsTrue, IfOk};
ghost use Rattle.route_tables.specs.Serials.{serial_at, HasSerial, IsListedAt, MayTouch, TouchesWell};

use crate::gates::is_empty;
use crate::{CellFault, FaultWord, Tables};
use ww_rule::State;

/// Tests that each listed cell has its serial in the table.
pub fn have_serials(tables: &Tables) -> Result<(), CellFault>
    ensures { IfOk result (λ _. (n : ℕ) → n < length tables.now.cells →
        HasSerial tables.now.cells tables.now.serials tables.now.width n) }
{
    for n in 0..tables.cells.len() {
        if tables.serial(tables.cell(n)) as usize != n + 1 {
            return Err(tables.fault_at_cell(FaultWord::Touches, n));
        }
    }
    Ok(())
}

fn is_cell(cell: (u32, u32), x: usize, y: usize) -> bool
    ensures { IsTrue result → cell ≡ (x, y) }
{
    cell.0 as usize == x && cell.1 as usize == y
}

// Whether a place has no number and no cell, or the number of the listed cell that is there.
fn is_listed_at(tables: &Tables, states: &[State], k: usize) -> bool
    requires wide { 0 < tables.now.width }
    requires inside { k < length tables.now.serials }
    requires same { length states.now ≡ length tables.now.serials }
    ensures { IsTrue result → IsListedAt tables.now.cells states.now tables.now.serials
        tables.now.width k }
{
    let serial = *tables.serials.get(k) as usize;
    if serial == 0 {
        return is_empty(states[k]);
    }
    if serial > tables.cells.len() {
        return false;
    }
    let width = tables.width as usize;
    is_cell(tables.cell(serial - 1), k % width, k / width)
}

// The place of a window as a cell.
fn fault_at_place(word: FaultWord, k: usize, width: u32) -> CellFault {
    let width = u64::from(width.max(1));
    CellFault {
        word,
        x: (k as u64 % width) as u32,
        y: u32::try_from(k as u64 / width).unwrap_or(u32::MAX),
    }
}

/// Tests that each cell of the box is one listed cell, as the tables say, or is empty.
pub fn are_places(tables: &Tables, states: &[State]) -> Result<(), CellFault>
    ensures same { IfOk result (λ _. length states.now ≡ length tables.now.serials) }
    ensures places { IfOk result (λ _. (k : ℕ) → k < length tables.now.serials →
        IsListedAt tables.now.cells states.now tables.now.serials tables.now.width k) }
{
    if tables.width == 0 || states.len() != tables.serials.len() {
        return Err(fault_at_place(FaultWord::Touches, 0, tables.width));
    }
    for k in 0..states.len() {
        if !is_listed_at(tables, states, k) {
            return Err(fault_at_place(FaultWord::Touches, k, tables.width));
        }
    }
    Ok(())
}

fn may_touch(tables: &Tables, n: usize, serial: u32) -> bool
    ensures { IsTrue result → MayTouch tables.now.groups (length tables.now.gates) n serial }
{
    if serial == 0 {
        return true;
    }
    let group = tables.group(serial as usize - 1);
    group == tables.group(n) || tables.gates.len() <= group as usize
}

fn row_touches_well(tables: &Tables, n: usize, cell: (u32, u32), j: usize) -> bool
    requires near { j < 3 }
    ensures { IsTrue result → ((i : ℕ) → i < 3 →
        MayTouch tables.now.groups (length tables.now.gates) n
        (serial_at tables.now.serials tables.now.width (pos (cell.0 + i) -ℤ pos 1)
        (pos (cell.1 + j) -ℤ pos 1))) }
{
    for i in 0..3 {
        let serial = tables.serial_before(cell.0 as usize + i, cell.1 as usize + j);
        if !may_touch(tables, n, serial) {
            return false;
        }
    }
    true
}

// Whether around a listed cell, if it is of a gate, there are the gate's own cells, and those of wires.
fn touches_well(tables: &Tables, n: usize) -> bool
    ensures { IsTrue result → get_or tables.now.groups n 0 < length tables.now.gates →
        TouchesWell tables.now.cells tables.now.serials tables.now.width tables.now.groups
        (length tables.now.gates) n }
{
    if tables.gates.len() <= tables.group(n) as usize {
        return true;
    }
    let cell = tables.cell(n);
    for j in 0..3 {
        if !row_touches_well(tables, n, cell, j) {
            return false;
        }
    }
    true
}

/// Tests that around each cell of a gate there are its own cells, and those of wires.
pub fn are_gates_apart(tables: &Tables) -> Result<(), CellFault>
    ensures { IfOk result (λ _. (n : ℕ) → n < length tables.now.cells →
        get_or tables.now.groups n 0 < length tables.now.gates →
        TouchesWell tables.now.cells tables.now.serials tables.now.width tables.now.groups
        (length tables.now.gates) n) }
{
    for n in 0..tables.cells.len() {
        if !touches_well(tables, n) {
            return Err(tables.fault_at_cell(FaultWord::Touches, n));
        }
    }
    Ok(())
}
