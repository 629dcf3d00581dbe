// A cell of a block, by what stands in the block.
ghost use Rattle.std.specs.Prelude.{◌≡◌, ◌<◌, ◌^◌, pos, true, false, cond, ℕ};
ghost use Rattle.ww_rule.specs.declared.pattern.State.TheVariants.{Conductor, Empty};
ghost use Rattle.lane_core.specs.Plans.{IsAdmissible};
ghost use Rattle.plan_layout.specs.Tape.{drawn_edges, drawn_tiling};
ghost use Rattle.plan_layout.specs.Slots.{piece_of, slot_of};
ghost use Rattle.tile_core.specs.Drawing.{is_cell_of};
ghost use Rattle.tile_core.specs.Kinds.{interface};
ghost use Rattle.tile_library.specs.Drawings.{shipped_drawing};
ghost use Rattle.tiling.specs.Tiling.{Lit, drawn_piece, drawn_slot, edge_of, heads_of, is_entry_lit, is_exit_lit, tails_of};
ghost use Rattle.tiling.specs.Tiling.Piece.{Tile, Output};
ghost use Rattle.grid_assembly.specs.PortCells.{is_port_at, head_at, tail_at};

use lane_core::Plan;
use plan_layout::{Edge, Piece, Slot, is_lit};
use tile_core::{Kind, Library};
use tile_library::Shipped;
use ww_rule::State;

// Whether the edge at a port is lit at generation 0. The port is given by its place in the box of a
// piece whose first block is at this tile column and lane.
fn is_port_lit(plan: &Plan, column: u64, lane: u64, port: (u32, u32)) -> bool
    requires admissible { IsAdmissible plan.now }
    requires far { column < 2 ^ 57 }
    requires low { lane < 2 ^ 57 }
    ensures { result ≡ drawn_edges plan.now (edge_of column lane port) }
{
    let (x, y) = port;
    if x == 0 {
        is_lit(plan, Edge::Beside(column, lane + y as u64 / 16))
    } else if x == 31 {
        is_lit(plan, Edge::Beside(column + 1, lane + y as u64 / 16))
    } else if y == 0 {
        is_lit(plan, Edge::Above(column, lane))
    } else {
        is_lit(plan, Edge::Above(column, lane + (y as u64 + 1) / 16))
    }
}

// Whether the n-th entry of a tile is lit at generation 0, counted from 0.
fn is_entry_lit(plan: &Plan, column: u64, lane: u64, kind: Kind, n: usize) -> bool
    requires admissible { IsAdmissible plan.now }
    requires far { column < 2 ^ 57 }
    requires low { lane < 2 ^ 57 }
    requires two { n < 2 }
    ensures { result ≡ is_entry_lit (drawn_edges plan.now) column lane (interface kind) n }
{
    if n as u32 >= kind.lanes() {
        return false;
    }
    is_port_lit(plan, column, lane, kind.entries()[n])
}

// Whether the n-th exit of a tile is lit at generation 0, counted from 0.
fn is_exit_lit(plan: &Plan, column: u64, lane: u64, kind: Kind, n: usize) -> bool
    requires admissible { IsAdmissible plan.now }
    requires far { column < 2 ^ 57 }
    requires low { lane < 2 ^ 57 }
    requires two { n < 2 }
    ensures { result ≡ is_exit_lit (drawn_edges plan.now) column lane (interface kind) n }
{
    if n as u32 >= kind.lanes() {
        return false;
    }
    is_port_lit(plan, column, lane, kind.exits()[n])
}

// Whether a place is that of a port.
fn is_port_at(place: (u32, u32), port: (u32, u32)) -> bool
    ensures { result ≡ is_port_at place.0 place.1 port }
{
    place.0 == port.0 && place.1 == port.1
}

// Whether the n-th entry of a tile is at a place of its box, and lit. Few places are ports, so this
// is tested first.
fn is_lit_entry(
    plan: &Plan,
    column: u64,
    lane: u64,
    kind: Kind,
    n: usize,
    place: (u32, u32),
) -> bool
    requires admissible { IsAdmissible plan.now }
    requires far { column < 2 ^ 57 }
    requires low { lane < 2 ^ 57 }
    requires two { n < 2 }
    ensures { result ≡ head_at (drawn_edges plan.now) column lane kind n place.0 place.1 }
{
    is_port_at(place, kind.entries()[n]) && is_entry_lit(plan, column, lane, kind, n)
}

// Whether the n-th exit of a tile is at a place of its box, and lit.
fn is_lit_exit(plan: &Plan, column: u64, lane: u64, kind: Kind, n: usize, place: (u32, u32)) -> bool
    requires admissible { IsAdmissible plan.now }
    requires far { column < 2 ^ 57 }
    requires low { lane < 2 ^ 57 }
    requires two { n < 2 }
    ensures { result ≡ tail_at (drawn_edges plan.now) column lane kind n place.0 place.1 }
{
    is_port_at(place, kind.exits()[n]) && is_exit_lit(plan, column, lane, kind, n)
}

// Whether a tile has a head at a place of its box: an entry cell at a lit edge.
#[tactic(auto, using(crate::proofs::Ports::heads_at))]
fn is_head(plan: &Plan, column: u64, lane: u64, kind: Kind, place: (u32, u32)) -> bool
    requires admissible { IsAdmissible plan.now }
    requires far { column < 2 ^ 57 }
    requires low { lane < 2 ^ 57 }
    ensures { result ≡ is_cell_of (pos place.0) (pos place.1)
        (heads_of (drawn_edges plan.now) column lane (interface kind)) }
{
    is_lit_entry(plan, column, lane, kind, 0, place)
        || is_lit_entry(plan, column, lane, kind, 1, place)
}

// Whether a tile has a tail at a place of its box: an exit cell at a lit edge.
#[tactic(auto, using(crate::proofs::Ports::tails_at))]
fn is_tail(plan: &Plan, column: u64, lane: u64, kind: Kind, place: (u32, u32)) -> bool
    requires admissible { IsAdmissible plan.now }
    requires far { column < 2 ^ 57 }
    requires low { lane < 2 ^ 57 }
    ensures { result ≡ is_cell_of (pos place.0) (pos place.1)
        (tails_of (drawn_edges plan.now) column lane (interface kind)) }
{
    is_lit_exit(plan, column, lane, kind, 0, place)
        || is_lit_exit(plan, column, lane, kind, 1, place)
}

/// Whether no electron stands at generation 0 in a row of a tile's box.
#[tactic(auto, using(crate::proofs::Ports::dark_row))]
pub fn is_row_dark(plan: &Plan, column: u64, lane: u64, kind: Kind, y: u32) -> bool
    requires admissible { IsAdmissible plan.now }
    requires far { column < 2 ^ 57 }
    requires low { lane < 2 ^ 57 }
    ensures { result ≡ true → (x : ℕ) →
        drawn_piece shipped_drawing (drawn_edges plan.now) column lane (Tile kind) x y
        ≡ cond (shipped_drawing kind (pos x) (pos y)) Conductor Empty }
{
    !has_electron(plan, column, lane, kind, 0, y) && !has_electron(plan, column, lane, kind, 1, y)
}

// Whether the n-th entry or the n-th exit of a tile is in a row of its box, and lit.
fn has_electron(plan: &Plan, column: u64, lane: u64, kind: Kind, n: usize, y: u32) -> bool
    requires admissible { IsAdmissible plan.now }
    requires far { column < 2 ^ 57 }
    requires low { lane < 2 ^ 57 }
    requires two { n < 2 }
    ensures head { result ≡ false → (x : ℕ) → head_at
        (drawn_edges plan.now) column lane kind n x y ≡ false }
    ensures tail { result ≡ false → (x : ℕ) → tail_at
        (drawn_edges plan.now) column lane kind n x y ≡ false }
{
    has_head(plan, column, lane, kind, n, y) || has_tail(plan, column, lane, kind, n, y)
}

// Whether the n-th entry of a tile is in a row of its box, and lit.
fn has_head(plan: &Plan, column: u64, lane: u64, kind: Kind, n: usize, y: u32) -> bool
    requires admissible { IsAdmissible plan.now }
    requires far { column < 2 ^ 57 }
    requires low { lane < 2 ^ 57 }
    requires two { n < 2 }
    ensures { result ≡ false → (x : ℕ) → head_at (drawn_edges plan.now) column lane kind n x y ≡
        false }
{
    kind.entries()[n].1 == y && is_entry_lit(plan, column, lane, kind, n)
}

// Whether the n-th exit of a tile is in a row of its box, and lit.
fn has_tail(plan: &Plan, column: u64, lane: u64, kind: Kind, n: usize, y: u32) -> bool
    requires admissible { IsAdmissible plan.now }
    requires far { column < 2 ^ 57 }
    requires low { lane < 2 ^ 57 }
    requires two { n < 2 }
    ensures { result ≡ false → (x : ℕ) → tail_at (drawn_edges plan.now) column lane kind n x y ≡
        false }
{
    kind.exits()[n].1 == y && is_exit_lit(plan, column, lane, kind, n)
}

/// The cell at a place in the box of a tile whose first block is at this tile column and lane.
pub fn tile_cell(plan: &Plan, column: u64, lane: u64, kind: Kind, place: (u32, u32)) -> State
    requires admissible { IsAdmissible plan.now }
    requires far { column < 2 ^ 57 }
    requires low { lane < 2 ^ 57 }
    ensures { result ≡ drawn_piece shipped_drawing (drawn_edges plan.now) column lane
        (Tile kind) place.0 place.1 }
{
    if !Shipped.cell(kind, place.0, place.1) {
        State::Empty
    } else if is_head(plan, column, lane, kind, place) {
        State::Head
    } else if is_tail(plan, column, lane, kind, place) {
        State::Tail
    } else {
        State::Conductor
    }
}

// The cell at a place in the box of a piece whose first block is at this tile column and lane.
fn piece_cell(plan: &Plan, column: u64, lane: u64, piece: Piece, place: (u32, u32)) -> State
    requires admissible { IsAdmissible plan.now }
    requires far { column < 2 ^ 57 }
    requires low { lane < 2 ^ 57 }
    ensures { result ≡ drawn_piece shipped_drawing (drawn_edges plan.now) column lane
        (piece_of piece) place.0 place.1 }
{
    match piece {
        Piece::Tile(kind) => tile_cell(plan, column, lane, kind, place),
        Piece::Output => output_cell(plan, column, lane, place),
    }
}

/// The cell at a place in a block in which an output cell stands.
pub fn output_cell(plan: &Plan, column: u64, lane: u64, place: (u32, u32)) -> State
    requires admissible { IsAdmissible plan.now }
    requires far { column < 2 ^ 57 }
    requires low { lane < 2 ^ 57 }
    ensures { result ≡ drawn_piece shipped_drawing
        (drawn_edges plan.now) column lane Output place.0 place.1 }
{
    if place != (0, 8) {
        State::Empty
    } else if is_lit(plan, Edge::Beside(column, lane)) {
        State::Head
    } else {
        State::Conductor
    }
}

/// Returns the cell at a place in the block of this tile column and lane, in which `slot` stands.
pub fn slot_cell(plan: &Plan, column: u64, lane: u64, slot: Slot, x: u32, y: u32) -> State
    requires admissible { IsAdmissible plan.now }
    requires slot { slot_of slot ≡ drawn_tiling plan.now column lane }
    requires in_block { y < 16 }
    ensures { result ≡ drawn_slot shipped_drawing (drawn_edges plan.now) column lane
        (slot_of slot) x y }
{
    match slot {
        Slot::Nothing => State::Empty,
        Slot::Whole(piece) | Slot::Upper(piece) => piece_cell(plan, column, lane, piece, (x, y)),
        Slot::Lower(piece) => piece_cell(plan, column, lane.saturating_sub(1), piece, (x, y + 16)),
    }
}

// Whether a piece is known to have no cell in a row of its box.
fn is_piece_blank(piece: Piece, y: u32) -> bool
    ensures { result ≡ true → (edges : Lit) (column lane x : ℕ) →
        drawn_piece shipped_drawing edges column lane (piece_of piece) x y ≡ Empty }
{
    match piece {
        Piece::Tile(kind) => Shipped.is_row_blank(kind, y),
        Piece::Output => false,
    }
}

/// Returns whether a slot is known to have no cell in a row of its block.
pub fn is_slot_blank(slot: Slot, y: u32) -> bool
    requires in_block { y < 16 }
    ensures { result ≡ true → (edges : Lit) (column lane x : ℕ) →
        drawn_slot shipped_drawing edges column lane (slot_of slot) x y ≡ Empty }
{
    match slot {
        Slot::Nothing => true,
        Slot::Whole(piece) | Slot::Upper(piece) => is_piece_blank(piece, y),
        Slot::Lower(piece) => is_piece_blank(piece, y + 16),
    }
}
