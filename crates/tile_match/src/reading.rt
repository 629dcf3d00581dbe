// What stands in a block, by its cells.
ghost use Rattle.std.specs.Prelude.{◌≡◌, ◌+◌, ◌*◌, ◌<◌, ◌^◌};
ghost use Rattle.ww_rule.specs.Wireworld.{is_head};
ghost use Rattle.tile_timing.specs.Law.{is_filled};
ghost use Rattle.tile_match.specs.Blocks.{cell_shown, is_filled_in, instr_in};

use lane_core::Instr;
use ww_rule::{CellRows, State};

/// Returns the cell at column x and row y; past the rows it is empty.
pub fn cell_shown(rows: &CellRows, x: u64, y: u64) -> State
    ensures { result ≡ cell_shown rows.now x y }
{
    match rows.row_or_none(y as usize).get(x as usize) {
        Some(state) => *state,
        None => State::Empty,
    }
}

fn is_filled(state: State) -> bool
    ensures { result ≡ is_filled state }
{
    match state {
        State::Empty => false,
        State::Head | State::Tail | State::Conductor => true,
    }
}

fn is_filled_in(rows: &CellRows, x: u64, y: u64) -> bool
    ensures { result ≡ is_filled_in rows.now x y }
{
    is_filled(cell_shown(rows, x, y))
}

/// Returns whether a state is a head.
pub fn is_head(state: State) -> bool
    ensures { result ≡ is_head state }
{
    match state {
        State::Head => true,
        State::Empty | State::Tail | State::Conductor => false,
    }
}

/// Returns the instruction that a lane's block shows, if any; the block begins at column x.
pub fn instr_in(rows: &CellRows, x: u64, lane: u32) -> Option<Instr>
    requires { x < 2 ^ 63 }
    ensures { result ≡ instr_in rows.now x lane }
{
    let y = 16 * lane as u64;
    let ends = is_filled_in(rows, x + 23, y + 8);
    if is_filled_in(rows, x + 3, y + 6) {
        Some(if ends {
            Instr::Fork(lane)
        } else {
            Instr::Swap(lane)
        })
    } else if is_filled_in(rows, x + 5, y + 9) {
        Some(if ends {
            Instr::Or(lane)
        } else {
            Instr::Xor(lane)
        })
    } else if ends {
        None
    } else {
        Some(Instr::AndNot(lane))
    }
}
