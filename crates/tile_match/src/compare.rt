// Whether rows of cells are the drawing of a plan: compared block by block, in a block row by row,
// and in a row by runs of equal cells.
ghost use Rattle.std.specs.Prelude.{◌≡◌, ◌↔◌, ◌<◌, ◌≤◌, ◌+◌, ◌-◌, ◌*◌, ◌^◌, ◌/◌, ◌%◌, ◌==◌, [], All, IsTrue, IfOk, IfSome, IfNone, length, take, drop};
ghost use Rattle.std.specs.List.{list_any};
ghost use Rattle.lane_core.specs.Plans.{IsAdmissible, size_of};
ghost use Rattle.plan_layout.specs.Slots.{slot_of};
ghost use Rattle.plan_layout.specs.Tape.{drawn_tiling};
ghost use Rattle.ww_rule.specs.Patterns.{grid_of};
ghost use Rattle.grid_assembly.specs.PlanDrawing.{start_grid};
ghost use Rattle.tile_match.specs.Drawn.{IsBlock, IsSpanDrawn, IsBoxDrawn};

use crate::marks::{is_marked, marks_of};
use crate::slots::slot_in;
use grid_assembly::run_in;
use lane_core::Plan;
use plan_layout::Slot;
use std::alloc::{AllocError, Global};
use ww_rule::{CellRows, Pattern, State};

fn is_same(a: State, b: State) -> bool
    ensures { IsTrue result ↔ (a ≡ b) }
{
    match a {
        State::Empty => matches!(b, State::Empty),
        State::Head => matches!(b, State::Head),
        State::Tail => matches!(b, State::Tail),
        State::Conductor => matches!(b, State::Conductor),
    }
}

// Whether all of the cells have a state.
fn are_all(cells: &[State], state: State) -> bool
    ensures { IsTrue result ↔ All (λ cell. cell ≡ state) cells.now }
{
    cells.iter().all(|cell| is_same(*cell, state))
}

// `count` cells of a row, from a place on.
fn cells_from(cells: &[State], from: usize, count: usize) -> &[State]
    requires { from + count ≤ length cells.now }
    ensures { result.now ≡ take count (drop from cells.now) }
{
    &cells[from..from + count]
}

// How many equal cells, from x on, the plan's drawing has that the pattern has too; none if the
// pattern's cells differ.
fn drawn_run(plan: &Plan, slot: Slot, cells: &[State], y: u64, x: u64, until: u64) -> Option<u64>
    requires admissible { IsAdmissible plan.now }
    requires slot { slot_of slot ≡ drawn_tiling plan.now (x / 32) (y / 16) }
    requires some { x < until }
    requires in_row { until ≤ length cells.now }
    ensures drawn { IfSome result (λ count.
        (1 ≤ count)
        × (count ≤ 32 - x % 32)
        × (x + count ≤ until)
        × IsSpanDrawn plan.now cells.now y x (x + count)
        ) }
    ensures other { IfNone result (IsSpanDrawn plan.now cells.now y x until → ⊥) }
{
    let (state, count) = run_in(plan, slot, y, x, until - x);
    if are_all(cells_from(cells, x as usize, count as usize), state) {
        Some(count)
    } else {
        None
    }
}

// Whether the cells of row y in a block with this `slot`, from x on as far as `until`, are the
// plan's.
fn is_span_drawn(plan: &Plan, slot: Slot, cells: &[State], y: u64, from: u64, until: u64) -> bool
    requires admissible { IsAdmissible plan.now }
    requires slot { slot_of slot ≡ drawn_tiling plan.now (from / 32) (y / 16) }
    requires in_block { until ≤ 32 * (from / 32) + 32 }
    requires in_row { until ≤ length cells.now }
    ensures { IsTrue result ↔ IsSpanDrawn plan.now cells.now y from until }
{
    let mut x = from;
    while x < until {
        let Some(count) = drawn_run(plan, slot, cells, y, x, until) else {
            return false;
        };
        x += count;
    }
    true
}

// Whether the rows of a block are the plan's, as far as `until`.
fn is_block_drawn(
    plan: &Plan,
    slot: Slot,
    rows: &CellRows,
    column: u64,
    lane: u64,
    until: u64,
) -> bool
    requires admissible { IsAdmissible plan.now }
    requires block { IsBlock plan.now slot column lane until }
    requires in_rows { All (λ row. until ≤ length row) rows.now }
    requires low { 16 * lane + 16 ≤ length rows.now }
    ensures { IsTrue result
        ↔ IsBoxDrawn plan.now rows.now (16 * lane) (16 * lane + 16) (32 * column) until }
{
    for y in 16 * lane..16 * lane + 16 {
        if !is_span_drawn(plan, slot, rows.row(y as usize), y, 32 * column, until) {
            return false;
        }
    }
    true
}

// Whether the rows of a lane are the plan's. The caller knows whether the lane has an output.
fn is_lane_drawn(plan: &Plan, rows: &CellRows, width: u64, lane: u64, is_out: bool) -> bool
    requires admissible { IsAdmissible plan.now }
    requires no_tape { plan.now.tape ≡ [] }
    requires out { is_out ≡ list_any (λ out. out == lane) plan.now.outs }
    requires near { lane < 2 ^ 59 }
    requires wide { All (λ row. length row ≡ width) rows.now }
    requires low { 16 * lane + 16 ≤ length rows.now }
    ensures { IsTrue result ↔ IsBoxDrawn plan.now rows.now (16 * lane) (16 * lane + 16) 0 width }
{
    for column in 0..width / 32 + 1 {
        let until = 32 * column + (width - 32 * column).min(32);
        if !is_block_drawn(
            plan,
            slot_in(plan, column, lane, is_out),
            rows,
            column,
            lane,
            until,
        ) {
            return false;
        }
    }
    true
}

/// Returns whether a pattern of a plan's size is the plan's pattern.
pub fn is_drawn(alloc: Global, pattern: &Pattern, plan: &Plan) -> Result<bool, AllocError>
    requires admissible { IsAdmissible plan.now }
    requires no_tape { plan.now.tape ≡ [] }
    requires sized { size_of plan.now ≡ (pattern.now.width, pattern.now.height) }
    ensures { IfOk result (λ same. IsTrue same ↔ (grid_of pattern.now ≡ start_grid plan.now)) }
{
    let marks = marks_of(alloc, plan.outs.as_slice(), plan.lanes)?;
    for lane in 0..pattern.rows.len() as u64 / 16 {
        if !is_lane_drawn(
            plan,
            &pattern.rows,
            pattern.width,
            lane,
            is_marked(&marks, lane),
        ) {
            return Ok(false);
        }
    }
    Ok(true)
}
