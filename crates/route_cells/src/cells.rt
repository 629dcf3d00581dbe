// The list of cells of a routed circuit.
ghost use Rattle.std.specs.Prelude.{◌≡◌, ◌≤◌, IfOk, IsTrue};
ghost use Rattle.ww_rule.specs.Grid.{plane_of};
ghost use Rattle.routed_circuits.specs.Tables.{ShowsListRuns};
ghost use Rattle.route_tables.specs.Checked.{IsChecked};
ghost use Rattle.route_cells.specs.Fits.{FitsPorts};

use crate::RouteError;
use crate::flat::flat_cells;
use crate::lines::test_lines;
use crate::runs::{test_gates, test_wires};
use cell_core::CellList;
use gate_library::Drawing;
use pattern_reading::Ports;
use route_filling::{list_in, tables_of};
use route_tables::{BOX_LIMIT, CellFault, FaultWord, Tables, test_cells};
use std::alloc::Global;
use ww_rule::{Pattern, State};

// The columns and the cells of the box, if these are not too many.
fn size_of(pattern: &Pattern) -> Option<(u32, usize)> {
    let cells = pattern.width.checked_mul(pattern.height)?;
    match u32::try_from(pattern.width) {
        Ok(width) if cells <= BOX_LIMIT => Some((width, cells as usize)),
        _ => None,
    }
}

// A fault of the table's first line.
fn at_header(word: FaultWord) -> RouteError {
    RouteError::Fault(CellFault { word, x: 0, y: 0 })
}

// Whether the list has an input, an output and a net for each line of the table, and does not name
// constant 1.
fn fits(list: &CellList, ports: &Ports) -> bool
    requires { ports.now.c ≡ 1 }
    ensures { IsTrue result → FitsPorts ports.now list.now }
{
    let (_cells, _latches) = (list.cells.len(), list.latches.len());
    if list.inputs as usize != ports.ins.len() {
        return false;
    }
    if list.outs.len() != ports.outs.len() {
        return false;
    }
    if list.nets.len() != ports.nets.len() {
        return false;
    }
    if list.names_one() {
        return false;
    }
    true
}

// Tests the tables of a pattern with these cells, all of them, and that their list fits the port table.
fn test_all(
    alloc: Global,
    t: &Tables,
    states: &[State],
    width: u64,
    ports: &Ports,
) -> Result<(), RouteError>
    requires long { 3 ≤ ports.now.p }
    requires one { ports.now.c ≡ 1 }
    ensures { IfOk result (λ _. IsChecked t.now states.now ports.now × (t.now.width ≡ width)
        × FitsPorts ports.now t.now.list) }
{
    test_cells(t, states)?;
    test_gates(t, ports.p)?;
    test_wires(alloc, t, states, ports.p)?;
    test_lines(t, states, ports)?;
    if u64::from(t.width) != width {
        return Err(at_header(FaultWord::Touches));
    }
    if !fits(&t.list, ports) {
        return Err(at_header(FaultWord::Port));
    }
    Ok(())
}

// Tests that tables, all of them, are those of a pattern, and that their list fits the port table.
fn test_tables(
    alloc: Global,
    pattern: &Pattern,
    ports: &Ports,
    tables: &Tables,
) -> Result<(), RouteError>
    requires long { 3 ≤ ports.now.p }
    requires one { ports.now.c ≡ 1 }
    ensures { IfOk result (λ _. ShowsListRuns (plane_of pattern.now.rows) ports.now tables.now.list
        × FitsPorts ports.now tables.now.list) }
{
    let cells = flat_cells(alloc, pattern)?;
    test_all(alloc, tables, &cells, pattern.width, ports)
}

// The list of tables, if they are those of a pattern.
fn list_of(
    alloc: Global,
    pattern: &Pattern,
    ports: &Ports,
    tables: Tables,
) -> Result<CellList, RouteError>
    requires long { 3 ≤ ports.now.p }
    requires one { ports.now.c ≡ 1 }
    ensures shows { IfOk result (λ list. ShowsListRuns (plane_of pattern.now.rows) ports.now list) }
    ensures fits { IfOk result (FitsPorts ports.now) }
{
    match test_tables(alloc, pattern, ports, &tables) {
        Ok(()) => Ok(list_in(tables)),
        Err(error) => {
            drop(tables);
            Err(error)
        }
    }
}

/// Returns a list of cells whose runs a pattern shows at the cells of its port table, if it is the
/// routed circuit of this drawing: gates of the library that stand apart, joined by wires. The
/// drawing is a hint; what it says is tested against the pattern. The list has an input for each IN
/// line, an output for each OUT line and a net for each NET line, in order. A box of more than
/// `BOX_LIMIT` cells is too large.
pub fn cells_of(
    alloc: Global,
    pattern: &Pattern,
    ports: &Ports,
    drawing: &Drawing,
) -> Result<CellList, RouteError>
    ensures shows { IfOk result (λ list. ShowsListRuns (plane_of pattern.now.rows) ports.now list) }
    ensures fits { IfOk result (FitsPorts ports.now) }
{
    let Some((width, size)) = size_of(pattern) else {
        return Err(RouteError::TooLarge {
            width: pattern.width,
            height: pattern.height,
        });
    };
    if ports.p < 3 || ports.c != 1 {
        return Err(at_header(FaultWord::Port));
    }
    match tables_of(alloc, drawing, width, size)? {
        Ok(tables) => list_of(alloc, pattern, ports, tables),
        Err(fault) => Err(RouteError::Fault(fault)),
    }
}
