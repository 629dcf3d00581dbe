// Runs of equal cells of what stands in a block, as it is drawn, without electrons.
ghost use Rattle.std.specs.Prelude.{◌≡◌, ◌≤◌, ◌-◌, ◌<◌, cond, map, take, length, All};
ghost use Rattle.ww_rule.specs.declared.pattern.State.TheVariants.{Conductor, Empty};
ghost use Rattle.tile_library.specs.RowRuns.{IsRowRun};
ghost use Rattle.tiling.specs.Tiling.Piece.{Tile, Output};
ghost use Rattle.plan_layout.specs.Slots.{piece_of, slot_of};
ghost use Rattle.grid_assembly.specs.PortCells.{is_port_at};
ghost use Rattle.pattern_writing.specs.Writer.{tag_of};
ghost use Rattle.rle_write.specs.Dark.{bare_piece, bare_row, bare_slot};
ghost use Rattle.rle_write.specs.Runs.{IsCellRun, spelled};

use crate::rows::{Run, cell_tag};
use plan_layout::{Piece, Slot};
use tile_core::Kind;
use tile_library::Shipped;
use ww_rule::State;

// The state of a cell by whether it is drawn.
fn state_of(drawn: bool) -> State
    ensures { result ≡ cond drawn Conductor Empty }
{
    if drawn {
        State::Conductor
    } else {
        State::Empty
    }
}

// A run of equal cells in row `y` of a tile's box, from column `x` on.
fn tile_run(kind: Kind, x: u32, y: u32) -> (State, u32)
    requires { x < 32 }
    ensures { IsRowRun (λ x. bare_piece (Tile kind) x y) x (32 - x) result }
{
    if Shipped.is_row_blank(kind, y) {
        return (State::Empty, 32 - x);
    }
    let (drawn, count) = Shipped.run_at(kind, x, y);
    (state_of(drawn), count)
}

// Whether a place in a block is that of an output cell.
fn is_output_cell(x: u32, y: u32) -> bool
    ensures { result ≡ is_port_at x y (0, 8) }
{
    x == 0 && y == 8
}

// A run of equal cells in row `y` of a piece's box, from column `x` on.
fn piece_run(piece: Piece, x: u32, y: u32) -> (State, u32)
    requires { x < 32 }
    ensures { IsRowRun (λ x. bare_piece (piece_of piece) x y) x (32 - x) result }
{
    match piece {
        Piece::Tile(kind) => tile_run(kind, x, y),
        Piece::Output => (state_of(is_output_cell(x, y)), 1),
    }
}

// A run of equal cells in row `y` of what stands in a block, from column `x` on.
fn slot_run(slot: Slot, x: u32, y: u32) -> (State, u32)
    requires in_row { x < 32 }
    requires in_block { y < 16 }
    ensures { IsRowRun (λ x. bare_slot (slot_of slot) x y) x (32 - x) result }
{
    match slot {
        Slot::Nothing => (State::Empty, 32 - x),
        Slot::Whole(piece) | Slot::Upper(piece) => piece_run(piece, x, y),
        Slot::Lower(piece) => piece_run(piece, x, y + 16),
    }
}

/// Puts the runs of row `y` of what stands in a block into `runs`, and returns how many there are.
pub fn runs_of_row(slot: Slot, y: u32, runs: &mut [Run]) -> usize
    requires in_block { y < 16 }
    requires room { 32 ≤ length runs.old }
    ensures size { length runs.new ≡ length runs.old }
    ensures few { result ≤ 32 }
    ensures cells { All IsCellRun (take result runs.new) }
    ensures runs { spelled (take result runs.new) ≡ map tag_of (bare_row (slot_of slot) y) }
{
    let mut x = 0;
    let mut found = 0;
    'cells: while x < 32 {
        let (state, count) = slot_run(slot, x, y);
        runs[found] = Run {
            count: count as usize,
            tag: cell_tag(state),
        };
        found += 1;
        x += count;
    }
    found
}
