// The times of a plan, and the cells where its signals are found. Each cell comes with x, y and an
// offset: the number of generations from the start of a cycle to the generation at which the cell
// shows that cycle's bit. A plan with a tape is drawn further east.
ghost use Rattle.std.specs.Prelude.{◌≡◌, ◌+◌, ◌*◌, ◌^◌, ◌<◌, length};
ghost use Rattle.lane_core.specs.Plans.{IsAdmissible, latency_of, period_of, left_of, in_cell_of, out_cell_of, net_cell_of};
ghost use Rattle.lane_core.specs.Tape.{tape_shift, moved_east};

use crate::{Plan, tape_shift};

fn row_of(lane: u32) -> u64
    ensures { result ≡ 16 * lane + 8 }
{
    16 * lane as u64 + 8
}

// x of the west side of a column, in the drawing of the plan.
fn left_of(plan: &Plan, column: u64) -> u64
    requires admissible { IsAdmissible plan.now }
    requires near { column < 2 ^ 42 }
    ensures exact { result ≡ 32 * tape_shift plan.now + left_of plan.now column }
    ensures few { result < 2 ^ 60 }
{
    32 * (tape_shift(plan) + plan.latches as u64 + column)
}

/// Returns the generations from an input to the outputs that depend on it.
pub fn latency(plan: &Plan) -> u64
    requires { IsAdmissible plan.now }
    ensures { result ≡ latency_of plan.now }
{
    32 * plan.columns.len() as u64
}

/// Returns the generations from one cycle to the next.
pub fn period(plan: &Plan) -> u64
    requires { IsAdmissible plan.now }
    ensures { result ≡ period_of plan.now }
{
    if plan.latches == 0 {
        32
    } else {
        32 * (2 * plan.columns.len() as u64 + 4 * plan.latches as u64)
    }
}

/// Returns x, y and the offset 0 of the cell of input `i`.
pub fn in_cell(plan: &Plan, i: usize) -> (u64, u64, u64)
    requires admissible { IsAdmissible plan.now }
    requires known { i < length plan.now.ins }
    ensures { result ≡ moved_east (tape_shift plan.now) (in_cell_of plan.now i) }
{
    (left_of(plan, 0), row_of(*plan.ins.get(i)), 0)
}

/// Returns x, y and the offset of the cell of output `i`; the offset is the latency.
pub fn out_cell(plan: &Plan, i: usize) -> (u64, u64, u64)
    requires admissible { IsAdmissible plan.now }
    requires known { i < length plan.now.outs }
    ensures { result ≡ moved_east (tape_shift plan.now) (out_cell_of plan.now i) }
{
    let columns = plan.columns.len() as u64;
    (
        left_of(plan, columns),
        row_of(*plan.outs.get(i)),
        32 * columns,
    )
}

/// Returns x, y and the offset of the cell of net `i`: an entry of the first column, or an exit of
/// a column.
pub fn net_cell(plan: &Plan, i: usize) -> (u64, u64, u64)
    requires admissible { IsAdmissible plan.now }
    requires known { i < length plan.now.nets }
    ensures { result ≡ moved_east (tape_shift plan.now) (net_cell_of plan.now i) }
{
    let place = plan.nets.get(i);
    let y = row_of(place.lane);
    match place.after {
        None => (left_of(plan, 0), y, 0),
        Some(column) => (left_of(plan, column) + 31, y, 32 * column + 31),
    }
}
