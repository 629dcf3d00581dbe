// The law of crossings, tested for each input alone.
ghost use Rattle.std.specs.Prelude.{All, IsTrue};
ghost use Rattle.gate_laws.specs.Crossings.{KeepsCrossingLaw};
ghost use Rattle.gate_laws.specs.Drawn.{window_crossing, IsOfOne};

use crate::window::{InCell, OutCell, answers_in_time, has_cells, is_sized};
use ww_rule::State;

fn is_of_one(out: OutCell) -> bool
    ensures { IsTrue result → IsOfOne out }
{
    !out.table[0] && !(out.table[1] && out.table[2])
}

fn are_of_one(outs: &[OutCell]) -> bool
    ensures { IsTrue result → All IsOfOne outs.now }
{
    for out in outs {
        if !is_of_one(*out) {
            return false;
        }
    }
    true
}

/// Returns whether a drawing keeps the law of crossings: rows of `width` cells, at most 1,024 in
/// all, with two inputs, each of which alone the outputs answer by their tables, after their
/// delays; and whether either input may be lit again after `time` generations.
pub fn keeps_crossing_law(
    cells: &[State],
    width: usize,
    first: (u32, u32),
    second: (u32, u32),
    outs: &[OutCell],
    time: usize,
) -> bool
    ensures { IsTrue result
        → KeepsCrossingLaw (window_crossing cells.now width first second outs.now time) }
{
    let ins = [
        InCell {
            x: first.0,
            y: first.1,
            generation: 0,
        },
        InCell {
            x: second.0,
            y: second.1,
            generation: 0,
        },
    ];
    if !is_sized(cells, width, &ins, time) {
        return false;
    }
    if !has_cells(cells, width, &ins, outs, time) {
        return false;
    }
    let size = cells.len();
    let mut now = [State::Empty; 1024];
    let mut next = [State::Empty; 1024];
    let (now, next) = (&mut now[..size], &mut next[..size]);
    let none = answers_in_time(cells, width, &ins, outs, time, &[false, false], now, next);
    if !none {
        return false;
    }
    let by_first = answers_in_time(cells, width, &ins, outs, time, &[true, false], now, next);
    if !by_first {
        return false;
    }
    let by_second = answers_in_time(cells, width, &ins, outs, time, &[false, true], now, next);
    if !by_second {
        return false;
    }
    are_of_one(outs)
}
