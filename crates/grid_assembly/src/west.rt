// Runs of equal cells west of a plan, where only its tape lies, found from electron to electron in
// one step.
ghost use Rattle.std.specs.Prelude.{◌≡◌, ◌+◌, ◌-◌, ◌*◌, ◌<◌, ◌≤◌, ◌==◌, ◌/◌, ◌%◌, ◌^◌, ◌&&◌, cond, pos};
ghost use Rattle.std.specs.List.{list_any};
ghost use Rattle.lane_core.specs.Plans.{IsAdmissible};
ghost use Rattle.lane_core.specs.Tape.{cycle_tiles, tape_shift};
ghost use Rattle.plan_layout.specs.Tape.{drawn_edges, drawn_plane};
ghost use Rattle.tiling.specs.Tiling.Edge.{Beside};
ghost use Rattle.ww_rule.specs.declared.pattern.State.TheVariants.{Tail, Conductor};
ghost use Rattle.tile_library.specs.Drawings.{shipped_drawing};
ghost use Rattle.tile_library.specs.RowRuns.{IsRowRun};
ghost use Rattle.grid_assembly.specs.West.{tape_end, IsWest};
ghost use Rattle.grid_assembly.specs.declared.west.West.TheVariants.{Wire};

use lane_core::{Plan, cycle_tiles, tape_shift};
use plan_layout::{Edge, body_column, is_lit};
use ww_rule::State;

/// What a row of cells has west of a plan.
#[derive(Clone, Copy)]
pub enum West {
    /// No wire: all cells are empty.
    Blank,
    /// The wire of an input, with the electrons of its tape.
    Wire,
}

/// Returns the x up to which cells belong to the tape alone, or 0 without a tape.
pub fn tape_end(plan: &Plan) -> u64
    requires { IsAdmissible plan.now }
    ensures exact { result ≡ tape_end plan.now }
    ensures near { result < 2 ^ 60 }
{
    32 * tape_shift(plan).saturating_sub(1)
}

// Whether an input enters on a lane.
fn is_input(ins: &[u32], lane: u64) -> bool
    ensures { result ≡ list_any (λ input. input == lane) ins.now }
{
    ins.iter().any(|input| *input as u64 == lane)
}

// Whether the wire of an input runs along row `y`.
fn has_wire(plan: &Plan, y: u64) -> bool
    ensures { result ≡ (y % 16 == 8 && list_any (λ input. input == y / 16) plan.now.ins) }
{
    y % 16 == 8 && is_input(plan.ins.as_slice(), y / 16)
}

/// Returns what row `y` has up to `tape_end`.
pub fn west_of(plan: &Plan, y: u64) -> West
    ensures { IsWest plan.now y result }
{
    if has_wire(plan, y) {
        West::Wire
    } else {
        West::Blank
    }
}

// The first tile column east of this one at whose west side an electron may lie, because a cycle
// begins there.
fn next_cycle(plan: &Plan, column: u64) -> u64
    requires admissible { IsAdmissible plan.now }
    requires west { column < tape_shift plan.now }
    ensures exact { result ≡ column + 1 + (tape_shift plan.now +
        plan.now.latches - (column + 1)) % cycle_tiles plan.now }
    ensures near { result < 2 ^ 57 }
{
    let body = body_column(plan);
    column + 1 + (body - (column + 1)) % cycle_tiles(plan)
}

// Whether the cell at `x` is a head: it lies at the west side of a block, and the edge there is
// lit.
fn is_head_at(plan: &Plan, y: u64, x: u64) -> bool
    requires admissible { IsAdmissible plan.now }
    requires low { y < 2 ^ 60 }
    requires near { x < 2 ^ 60 }
    ensures { result ≡ (x % 32 == 0 && drawn_edges plan.now (Beside (x / 32) (y / 16))) }
{
    x % 32 == 0 && is_lit(plan, Edge::Beside(x / 32, y / 16))
}

// The last cell of a wire before the west side of a tile column.
fn end_of_wire(plan: &Plan, y: u64, column: u64) -> State
    requires admissible { IsAdmissible plan.now }
    requires low { y < 2 ^ 60 }
    requires near { column < 2 ^ 57 }
    ensures { result ≡ cond (drawn_edges plan.now (Beside column (y / 16))) Tail Conductor }
{
    if is_lit(plan, Edge::Beside(column, y / 16)) {
        State::Tail
    } else {
        State::Conductor
    }
}

// A run of equal cells of a wire, from the cell at `x` on.
fn wire_run(plan: &Plan, y: u64, x: u64) -> (State, u64)
    requires admissible { IsAdmissible plan.now }
    requires wire { IsWest plan.now y Wire }
    requires low { y < 2 ^ 60 }
    requires near { x < 2 ^ 60 }
    requires west { x < tape_end plan.now }
    ensures { IsRowRun (λ x. drawn_plane shipped_drawing plan.now (pos x) (pos y)) x
        (tape_end plan.now - x) result }
{
    let next = next_cycle(plan, x / 32);
    if is_head_at(plan, y, x) {
        (State::Head, 1)
    } else if x + 1 == 32 * next {
        (end_of_wire(plan, y, next), 1)
    } else {
        (State::Conductor, tape_end(plan).min(32 * next - 1) - x)
    }
}

/// Returns the state of the cell at column `x` and row `y`, west of `tape_end`, and a number of
/// cells from it eastward that all have this state: from 1 to `limit`, and none beyond `tape_end`.
/// A blank row takes one step to `tape_end`, and a row with a wire two steps from cycle to cycle.
pub fn run_on_tape(plan: &Plan, west: West, y: u64, x: u64, limit: u64) -> (State, u64)
    requires admissible { IsAdmissible plan.now }
    requires row { IsWest plan.now y west }
    requires low { y < 2 ^ 60 }
    requires west { x < tape_end plan.now }
    requires some { 1 ≤ limit }
    ensures run { IsRowRun (λ x. drawn_plane shipped_drawing plan.now (pos x)
        (pos y)) x limit result }
    ensures inside { x + result.1 ≤ tape_end plan.now }
{
    let (state, count) = match west {
        West::Blank => (State::Empty, tape_end(plan) - x),
        West::Wire => wire_run(plan, y, x),
    };
    (state, limit.min(count))
}
