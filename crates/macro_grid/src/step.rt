// Which edges are lit 32 generations later.
ghost use Rattle.std.specs.Prelude.{◌≡◌, ◌<◌, ◌^◌, length};
ghost use Rattle.tile_core.specs.declared.kind.Kind.{Kind};
ghost use Rattle.tile_core.specs.Drawing.{Drawing};
ghost use Rattle.tile_core.specs.Kinds.{interface};
ghost use Rattle.tiling.specs.Steps.{KeepsLaw, StepsByMacro};
ghost use Rattle.macro_grid.specs.Planes.{IsDrawnAfter32};
ghost use Rattle.tiling.specs.Tiling.{Edge, edge_of, is_entry_lit};
ghost use Rattle.tiling.specs.Tiling.Edge.{Beside, Above};
ghost use Rattle.tiling.specs.Tiling.Piece.{Tile};
ghost use Rattle.tiling.specs.MacroStep.{macro_step as next_edges, slot_answers, piece_answers};
ghost use Rattle.lane_core.specs.Plans.{IsAdmissible};
ghost use Rattle.macro_grid.specs.Edges.{IsEdgesOf, TellEdges, lit_of};
ghost use Rattle.plan_layout.specs.Tape.{drawn_tiling};
ghost use Rattle.plan_layout.specs.Slots.{slot_of};

use crate::Edges;
use lane_core::Plan;
use plan_layout::{Piece, Slot, slot_drawn_at};
use tile_core::Kind;

// Whether the edge at a port is lit. The port is given by its place in the box of a piece whose
// first block is at this tile column and lane.
fn is_port_lit(edges: &Edges, column: u64, lane: u64, port: (u32, u32)) -> bool
    requires far { column < 2 ^ 63 }
    requires low { lane < 2 ^ 62 }
    ensures { result ≡ lit_of edges.now (edge_of column lane port) }
{
    let (x, y) = port;
    if x == 0 {
        edges.beside(column, lane + y as u64 / 16)
    } else if x == 31 {
        edges.beside(column + 1, lane + y as u64 / 16)
    } else if y == 0 {
        edges.above(column, lane)
    } else {
        edges.above(column, lane + (y as u64 + 1) / 16)
    }
}

// Whether the n-th entry of a tile is lit, counted from 0.
fn is_entry_lit(edges: &Edges, column: u64, lane: u64, kind: Kind, n: usize) -> bool
    requires far { column < 2 ^ 63 }
    requires low { lane < 2 ^ 62 }
    requires two { n < 2 }
    ensures { result ≡ is_entry_lit (lit_of edges.now) column lane (interface kind) n }
{
    if n as u32 >= kind.lanes() {
        return false;
    }
    is_port_lit(edges, column, lane, kind.entries()[n])
}

// Whether a tile lights its exit at this place of its box.
fn tile_answers(edges: &Edges, column: u64, lane: u64, kind: Kind, port: (u32, u32)) -> bool
    requires far { column < 2 ^ 63 }
    requires low { lane < 2 ^ 62 }
    ensures { result ≡ piece_answers (lit_of edges.now) column lane (Tile kind) port.0 port.1 }
{
    let upper = is_entry_lit(edges, column, lane, kind, 0);
    let lower = is_entry_lit(edges, column, lane, kind, 1);
    let answers = kind.answer([upper, lower]);
    let exits = kind.exits();
    if answers[0] && exits[0] == port {
        return true;
    }
    kind.lanes() == 2 && answers[1] && exits[1] == port
}

// Whether what stands in a block lights its exit at this place of the block.
fn is_answered(edges: &Edges, column: u64, lane: u64, slot: Slot, x: u32, y: u32) -> bool
    requires far { column < 2 ^ 63 }
    requires low { lane < 2 ^ 62 }
    requires in_block { y < 16 }
    ensures { result ≡ slot_answers (lit_of edges.now) column lane (slot_of slot) x y }
{
    match slot {
        Slot::Whole(Piece::Tile(kind)) | Slot::Upper(Piece::Tile(kind)) => tile_answers(
            edges,
            column,
            lane,
            kind,
            (x, y),
        ),
        Slot::Lower(Piece::Tile(kind)) => tile_answers(
            edges,
            column,
            lane.saturating_sub(1),
            kind,
            (x, y + 16),
        ),
        Slot::Nothing
        | Slot::Whole(Piece::Output)
        | Slot::Upper(Piece::Output)
        | Slot::Lower(Piece::Output) => false,
    }
}

// Whether the step lights the edge on the west side of a block.
fn beside_after(plan: &Plan, old: &Edges, column: u64, lane: u64) -> bool
    requires admissible { IsAdmissible plan.now }
    requires far { column < 2 ^ 63 }
    requires low { lane < 2 ^ 62 }
    ensures { result ≡ next_edges (drawn_tiling plan.now) (lit_of old.now) (Beside column lane) }
{
    let from_east = is_answered(old, column, lane, slot_drawn_at(plan, column, lane), 0, 8);
    if column == 0 {
        return from_east;
    }
    is_answered(
        old,
        column - 1,
        lane,
        slot_drawn_at(plan, column - 1, lane),
        31,
        8,
    ) || from_east
}

// Whether the step lights the edge on the north side of a block.
fn above_after(plan: &Plan, old: &Edges, column: u64, lane: u64) -> bool
    requires admissible { IsAdmissible plan.now }
    requires far { column < 2 ^ 63 }
    requires low { lane < 2 ^ 62 }
    ensures { result ≡ next_edges (drawn_tiling plan.now) (lit_of old.now) (Above column lane) }
{
    let from_below = is_answered(old, column, lane, slot_drawn_at(plan, column, lane), 16, 0);
    if lane == 0 {
        return from_below;
    }
    is_answered(
        old,
        column,
        lane - 1,
        slot_drawn_at(plan, column, lane - 1),
        16,
        15,
    ) || from_below
}

// Sets the bits of the edges on the west sides of blocks.
fn step_beside(plan: &Plan, old: &Edges, lanes: usize, bits: &mut [bool])
    requires admissible { IsAdmissible plan.now }
    requires some { 0 < lanes }
    requires few { lanes < 2 ^ 62 }
    ensures { TellEdges (length bits.new) lanes Beside bits.new
        (next_edges (drawn_tiling plan.now) (lit_of old.now)) }
{
    for (i, lit) in bits.iter_mut().enumerate() {
        *lit = beside_after(plan, old, (i / lanes) as u64, (i % lanes) as u64);
    }
}

// Sets the bits of the edges on the north sides of blocks.
fn step_above(plan: &Plan, old: &Edges, lanes: usize, bits: &mut [bool])
    requires admissible { IsAdmissible plan.now }
    requires some { 0 < lanes }
    requires few { lanes < 2 ^ 62 }
    ensures { TellEdges (length bits.new) lanes Above bits.new
        (next_edges (drawn_tiling plan.now) (lit_of old.now)) }
{
    for (i, lit) in bits.iter_mut().enumerate() {
        *lit = above_after(plan, old, (i / lanes) as u64, (i % lanes) as u64);
    }
}

/// Does one macro step: sets `new` to the edges that are lit 32 generations after those of `old`.
/// These are the exits of tiles that answer 1 to their entry edges.
pub fn macro_step(plan: &Plan, old: &Edges, new: &mut Edges)
    requires admissible { IsAdmissible plan.now }
    requires made { IsEdgesOf plan.now new.old }
    ensures made { IsEdgesOf plan.now new.new }
    ensures step { (edge : Edge) → lit_of new.new edge ≡
        next_edges (drawn_tiling plan.now) (lit_of old.now) edge }
    // whatever the drawings of the tiles, if they keep the timing law
    ensures plane { (library : Kind → Drawing) → KeepsLaw library →
        IsDrawnAfter32 library (drawn_tiling plan.now) (lit_of old.now) (lit_of new.new) }
    ensures later { (library : Kind → Drawing) → KeepsLaw library →
        StepsByMacro library (drawn_tiling plan.now) (lit_of old.now) }
{
    let lanes = new.lanes;
    step_beside(plan, old, lanes, &mut new.beside);
    step_above(plan, old, lanes, &mut new.above);
}
