// All tests of cells.
ghost use Rattle.std.specs.Prelude.{IfOk};
ghost use Rattle.route_tables.specs.Checked.{HasItsCells};

use crate::alone::are_alone;
use crate::feeds::{are_drives_fed, are_ends_fed, are_gates_fed};
use crate::gates::{are_gates_there, are_in_gates};
use crate::serials::{are_gates_apart, are_places, have_serials};
use crate::wires::{are_on_wires, are_wires_there};
use crate::{CellFault, Tables};
use ww_rule::State;

/// Tests that each cell of the box is empty, or of one gate or wire, which stand where the tables
/// say, apart from each other, and that each input is fed by one wire, or is driven.
pub fn test_cells(tables: &Tables, states: &[State]) -> Result<(), CellFault>
    ensures { IfOk result (λ _. HasItsCells tables.now states.now) }
{
    are_gates_there(tables, states)?;
    are_in_gates(tables)?;
    are_wires_there(tables)?;
    are_on_wires(tables)?;
    have_serials(tables)?;
    are_places(tables, states)?;
    are_gates_apart(tables)?;
    are_alone(tables)?;
    are_ends_fed(tables)?;
    are_drives_fed(tables)?;
    are_gates_fed(tables)
}
