// Gates are found by the cells around one of theirs.

use crate::error::{DrawingFault, FindError};
use crate::templates::{Near, Template, Templates};
use gate_library::DrawnGate;
use route_lines::{Board, Owner, Owners};

// How many cells in and around a template, whose corner is at a cell, are not as drawn, and the last of these; no more
// are counted after two. A cell of another gate, unless that is a lone cell, counts for two.
fn misfits(
    owners: &Owners,
    nears: &[Near],
    template: &Template,
    corner: (u32, u32),
) -> (u32, (u32, u32)) {
    let (mut count, mut last) = (0u32, corner);
    for number in template.start..template.end {
        if number >= nears.len() || count > 1 {
            break;
        }
        let near = nears[number];
        let cell = (corner.0.wrapping_add(near.x), corner.1.wrapping_add(near.y));
        let misfit = match owners.of(cell) {
            Owner::Nobody => u32::from(near.is_drawn),
            Owner::Open | Owner::Wire | Owner::Lone(_) => u32::from(!near.is_drawn),
            _ => 1 + u32::from(near.is_drawn),
        };
        if misfit > 0 {
            (count, last) = (count.saturating_add(misfit), cell);
        }
    }
    (count, last)
}

// The gate of the first template that fits at a cell.
fn fitting(owners: &Owners, templates: &Templates, cell: (u32, u32)) -> Option<DrawnGate> {
    let beside = owners.beside(cell).drawn;
    for template in &templates.all {
        let (x, y) = (
            cell.0.wrapping_sub(template.x),
            cell.1.wrapping_sub(template.y),
        );
        if template.beside == beside && misfits(owners, &templates.nears, template, (x, y)).0 == 0 {
            return Some(DrawnGate {
                kind: template.kind,
                x,
                y,
                first: 0,
                later: 0,
            });
        }
    }
    None
}

/// Finds all gates but lone cells.
pub fn find_gates(board: &mut Board, templates: &Templates) {
    for number in 0..board.owners.count() {
        let cell = board.owners.cell(number);
        if let Owner::Open = board.owners.of(cell) {
            if let Some(gate) = fitting(&board.owners, templates, cell) {
                board.add_gate(gate);
            }
        }
    }
}

/// Returns the fault at a cell that is of no gate and of no wire: if all but one of the cells of a gate around it are
/// as drawn, that one.
pub fn fault_near(owners: &Owners, templates: &Templates, cell: (u32, u32)) -> FindError {
    for near in &templates.nears {
        if near.template < templates.all.len() {
            let template = templates.all[near.template];
            let corner = (cell.0.wrapping_sub(near.x), cell.1.wrapping_sub(near.y));
            let (count, wrong) = misfits(owners, &templates.nears, &template, corner);
            if count == 1 {
                return FindError::at(DrawingFault::Gate, wrong);
            }
        }
    }
    FindError::at(DrawingFault::Wire, cell)
}
