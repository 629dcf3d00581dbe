// The cells of strands whose tiles are placed.

use crate::plane::{Node, node_at};
use crate::sweep::{Sweep, place_at};
use lists::OutOfMemory;
use strand_core::{Layout, Strand, StrandCircuit, add};

fn cell_row(row: i32) -> u32 {
    u32::try_from(row).unwrap_or(0)
}

// The last column of a strand: that of its user's entries, or the one where strands go out.
fn end_of(tiles: &[(u32, u32)], strand: Strand, last: u32) -> u32 {
    match strand.user {
        Some(user) => place_at(tiles, user).0,
        None => last,
    }
}

// Adds the cells from a node on to the last column. Notes if memory is refused.
fn add_cells(
    layout: &mut Layout,
    nodes: &[Node],
    first: (u32, u32),
    last: u32,
    is_refused: &mut bool,
) {
    let mut number = Some(first.1);
    for column in first.0..last.saturating_add(1) {
        let Some(node) = node_at(nodes, number) else {
            return;
        };
        let row = cell_row(node.row);
        add(&mut layout.path, (column, row), is_refused);
        layout.height = layout.height.max(row.saturating_add(1));
        number = node.east;
    }
}

fn add_tiles(layout: &mut Layout, nodes: &[Node], tiles: &[(u32, u32)], is_refused: &mut bool) {
    for (column, entry) in tiles {
        let row = match node_at(nodes, Some(*entry)) {
            Some(node) => cell_row(node.row),
            None => 0,
        };
        add(&mut layout.tiles, (*column, row), is_refused);
    }
}

/// Makes an empty layout that of a circuit whose tiles are all placed.
pub fn lay_out(
    sweep: &Sweep,
    circuit: &StrandCircuit,
    layout: &mut Layout,
) -> Result<(), OutOfMemory> {
    let (last, mut is_refused) = (sweep.last_column(circuit), false);
    layout.width = last.saturating_add(1);
    add_tiles(layout, &sweep.plane.nodes, &sweep.tiles, &mut is_refused);
    add(&mut layout.starts, 0, &mut is_refused);
    for number in 0..circuit.strands.len() {
        let first = sweep.strands.get(number).copied().unwrap_or((0, 0));
        let end = end_of(&sweep.tiles, circuit.strands[number], last);
        add_cells(layout, &sweep.plane.nodes, first, end, &mut is_refused);
        let size = u32::try_from(layout.path.len()).unwrap_or(u32::MAX);
        add(&mut layout.starts, size, &mut is_refused);
    }
    if is_refused {
        Err(OutOfMemory::NoMemory)
    } else {
        Ok(())
    }
}
