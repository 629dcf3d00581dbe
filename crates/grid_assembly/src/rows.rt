// The size of a plan's drawing, its cells, its rows, and its pattern.
ghost use Rattle.std.specs.Prelude.{◌≡◌, ◌≤◌, ◌+◌, ◌^◌, pos, length, IfOk};
ghost use Rattle.ww_rule.specs.Grid.{IsEmptyOutside};
ghost use Rattle.ww_rule.specs.Patterns.{grid_of};
ghost use Rattle.lane_core.specs.Plans.{IsAdmissible, size_of};
ghost use Rattle.plan_layout.specs.Tape.{drawn_plane};
ghost use Rattle.tile_library.specs.Drawings.{shipped_drawing};
ghost use Rattle.grid_assembly.specs.PlanDrawing.{AreCellsOfRow, start_grid};

use crate::cells::{is_slot_blank, slot_cell};
use lane_core::{Plan, tape_shift};
use plan_layout::slot_drawn_at;
use std::alloc::{AllocError, Global};
use ww_rule::{CellRows, Pattern, State};

/// Returns the width and height of the drawing in cells, (0, 0) for a plan without lanes.
pub fn size(plan: &Plan) -> (u64, u64)
    requires { IsAdmissible plan.now }
    ensures exact { result ≡ size_of plan.now }
    ensures outside { IsEmptyOutside result.0 result.1 (drawn_plane shipped_drawing plan.now) }
{
    if plan.lanes == 0 {
        return (0, 0);
    }
    let loops = plan.latches as u64;
    (
        32 * (tape_shift(plan) + (plan.columns.len() as u64 + 2 * loops)) + 1,
        16 * (plan.lanes as u64 + loops),
    )
}

/// Returns the cell of the drawing at column `x` and row `y`, both counted from 0 from the
/// north-western corner. Beyond the drawing all cells are empty.
pub fn cell(plan: &Plan, x: u64, y: u64) -> State
    requires { IsAdmissible plan.now }
    ensures { result ≡ drawn_plane shipped_drawing plan.now (pos x) (pos y) }
{
    let (column, lane) = (x / 32, y / 16);
    slot_cell(
        plan,
        column,
        lane,
        slot_drawn_at(plan, column, lane),
        (x % 32) as u32,
        (y % 16) as u32,
    )
}

/// Writes the cells of row `y` of the drawing, from column `x` on, into the whole of `row`.
pub fn fill_row(plan: &Plan, y: u64, x: u64, row: &mut [State])
    requires admissible { IsAdmissible plan.now }
    requires in_range { x + length row.old ≤ 2 ^ 64 }
    ensures { AreCellsOfRow plan.now y x row.new }
{
    let lane = y / 16;
    let below = (y % 16) as u32;
    let mut column = x / 32;
    let mut slot = slot_drawn_at(plan, column, lane);
    let mut is_blank = is_slot_blank(slot, below);
    for (i, cell) in row.iter_mut().enumerate() {
        let place = x + i as u64;
        if place / 32 != column {
            column = place / 32;
            slot = slot_drawn_at(plan, column, lane);
            is_blank = is_slot_blank(slot, below);
        }
        *cell = if is_blank {
            State::Empty
        } else {
            slot_cell(plan, column, lane, slot, (place % 32) as u32, below)
        };
    }
}

/// Returns the pattern of a plan, which has the size that `size` returns.
pub fn pattern_of(alloc: Global, plan: &Plan) -> Result<Pattern, AllocError>
    requires { IsAdmissible plan.now }
    ensures { IfOk result (λ pattern. grid_of pattern ≡ start_grid plan.now) }
{
    let (width, height) = size(plan);
    let mut rows = CellRows::with_room(alloc, width as usize, height as usize)?;
    for y in 0..height {
        let mut row = vec![in alloc; State::Empty; width as usize]?;
        fill_row(plan, y, 0, &mut row);
        rows.push_row(&row)?;
    }
    Ok(Pattern {
        width,
        height,
        rows,
    })
}
