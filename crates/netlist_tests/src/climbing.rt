// The bare copy of the placer by which orders are climbed counts the tiles that the placer, the
// packer and the closer make.
ghost use Rattle.cell_plans.specs.PlanOf.{IsPlannable};

use crate::sizes::tiles_of;
use cell_core::CellList;
use cell_plans::climbed_plan;
use order_climbing::{Climbed, Start, climb};
use std::alloc::Global;
use std::slice::from_ref;

// Appends the numbers of so many cells. Returns whether memory ran out.
fn push_cells(order: &mut Vec<u32>, cells: usize) -> bool {
    let mut is_short = false;
    for cell in 0..cells {
        is_short |= order.push(u32::try_from(cell).unwrap_or(u32::MAX)).is_err();
    }
    is_short
}

// What climbing finds from the order in which the cells stand.
fn climbed(alloc: Global, list: &CellList) -> Option<Climbed> {
    let mut start = Start {
        list: 0,
        order: Vec::new(alloc),
    };
    if push_cells(&mut start.order, list.cells.len()) {
        drop(start);
        return None;
    }
    let found = climb(alloc, from_ref(list), from_ref(&start));
    drop(start);
    match found {
        Ok(found) => found,
        Err(_) => None,
    }
}

// Whether the plan at the draft that climbing found has as many tiles as climbing counted.
fn is_counted_at(alloc: Global, list: &CellList, found: &Climbed) -> bool
    requires { IsPlannable list.now }
{
    match climbed_plan(alloc, list, found) {
        Ok(Some(plan)) => {
            let is_counted = tiles_of(&plan) == found.tiles;
            drop(plan);
            is_counted
        }
        _ => false,
    }
}

/// Returns whether the plan at the draft that climbing finds has as many tiles as climbing counts.
pub fn is_counted(alloc: Global, list: &CellList) -> bool
    requires { IsPlannable list.now }
{
    match climbed(alloc, list) {
        Some(found) => {
            let is_counted = is_counted_at(alloc, list, &found);
            drop(found);
            is_counted
        }
        None => false,
    }
}
