// Lone cells: those of the port table, and those at which wires end or meet.

use crate::error::FindError;
use crate::gates::fault_near;
use crate::templates::Templates;
use gate_library::{DrawnGate, GateKind, Shape, Turn};
use route_lines::{Board, LineKind, Owner, TableCell};

/// Makes a cell a lone cell.
pub fn add_lone(board: &mut Board, cell: (u32, u32)) {
    board.add_gate(DrawnGate {
        kind: GateKind {
            shape: Shape::Lone,
            turn: Turn::East,
        },
        x: cell.0,
        y: cell.1,
        first: 0,
        later: 0,
    });
}

/// Makes the cells of the port table lone cells, if they are not of gates. A net's cell that is beside a gate stays
/// as it is.
pub fn add_table_cells(board: &mut Board, table: &[TableCell]) {
    for line in table {
        let is_open = matches!(board.owners.of(line.cell), Owner::Open);
        let is_net = matches!(line.kind, LineKind::Net);
        if is_open && !(is_net && board.owners.beside(line.cell).gates > 0) {
            add_lone(board, line.cell);
        }
    }
}

/// Makes each cell a lone cell at which a wire ends, or wires meet.
pub fn add_ends(board: &mut Board) {
    for number in 0..board.owners.count() {
        let cell = board.owners.cell(number);
        let is_open = matches!(board.owners.of(cell), Owner::Open);
        if is_open && board.owners.beside(cell).drawn != 2 {
            add_lone(board, cell);
        }
    }
}

/// Returns the fault at the first lone cell that is beside a gate.
pub fn fault_of_lone_cells(board: &Board, templates: &Templates) -> Option<FindError> {
    for gate in &board.gates {
        let cell = (gate.x, gate.y);
        let is_lone = matches!(gate.kind.shape, Shape::Lone);
        if is_lone && board.owners.beside(cell).gates > 0 {
            return Some(fault_near(&board.owners, templates, cell));
        }
    }
    None
}
