// Which edges of a plan's drawing are lit. An edge is a side at which two blocks meet, named by the
// tile column and the lane of the block east of it (`beside`) or south of it (`above`).
ghost use Rattle.std.specs.Prelude.{◌≡◌, ◌+◌, ◌*◌, ◌^◌, ◌<◌, ◌≤◌, ◌&&◌, nat_lt, length, IfOk};
ghost use Rattle.lists.specs.Items.{flag_at};
ghost use Rattle.tiling.specs.Tiling as tiling;
ghost use Rattle.tiling.specs.Tiling.Edge.{Beside, Above};
ghost use Rattle.lane_core.specs.Plans.{IsAdmissible};
ghost use Rattle.plan_layout.specs.Starts.{HasStartEdges};
ghost use Rattle.plan_layout.specs.Tape.{drawn_edges};
ghost use Rattle.macro_grid.specs.Edges.{IsEdgesOf, TellEdges, edge_columns, edge_lanes, lit_of};

use crate::EdgesError;
use lane_core::{Plan, tape_shift};
use plan_layout::{Edge, is_lit};
use std::alloc::Global;
use std::marker::Model;

/// A bit for each edge of a plan's drawing, true if the edge is lit.
#[derive(Drop)]
pub struct Edges {
    pub(crate) lanes: usize,
    pub(crate) beside: Vec<bool>,
    pub(crate) above: Vec<bool>,
}

impl Model for Edges {
    ghost use Rattle.macro_grid.specs.Edges.{EdgeBits};

    ghost Value = { EdgeBits };

    ghost view = { λ e. record {
      lanes = e.lanes;
      beside = e.beside.items;
      above = e.above.items;
    } };
}

impl Edges {
    /// Returns the edges that are lit at generation 0.
    pub fn start(alloc: Global, plan: &Plan) -> Result<Edges, EdgesError>
        requires admissible { IsAdmissible plan.now }
        requires starts { HasStartEdges plan.now }
        ensures made { IfOk result (IsEdgesOf plan.now) }
        ensures lit { IfOk result (λ e. (edge : tiling.Edge) →
            lit_of e edge ≡ drawn_edges plan.now edge) }
    {
        let lanes = edge_lanes(plan);
        let Some(count) = edge_columns(plan).checked_mul(lanes) else {
            return Err(EdgesError::NoMemory);
        };
        let mut beside = vec![in alloc; false; count]?;
        let mut above = vec![in alloc; false; count]?;
        light_beside(plan, lanes, &mut beside);
        light_above(plan, lanes, &mut above);
        Ok(Edges {
            lanes,
            beside,
            above,
        })
    }

    /// Returns whether the edge on the west side of a block is lit.
    pub fn beside(&self, column: u64, lane: u64) -> bool
        ensures { result ≡ lit_of self.now (Beside column lane) }
    {
        is_set(&self.beside, self.lanes, column, lane)
    }

    /// Returns whether the edge on the north side of a block is lit.
    pub fn above(&self, column: u64, lane: u64) -> bool
        ensures { result ≡ lit_of self.now (Above column lane) }
    {
        is_set(&self.above, self.lanes, column, lane)
    }
}

fn edge_columns(plan: &Plan) -> usize
    requires { IsAdmissible plan.now }
    ensures exact { result ≡ edge_columns plan.now }
    ensures few { result ≤ 2 ^ 57 }
{
    tape_shift(plan) as usize + 2 * plan.latches as usize + plan.columns.len() + 2
}

fn edge_lanes(plan: &Plan) -> usize
    ensures { result ≡ edge_lanes plan.now }
{
    plan.lanes as usize + plan.latches as usize + 1
}

// Sets the bits of the edges on the west sides of blocks to whether they are lit at generation 0.
#[tactic(auto, using(crate::proofs::Bits::column_near))]
fn light_beside(plan: &Plan, lanes: usize, bits: &mut [bool])
    requires admissible { IsAdmissible plan.now }
    requires some { 0 < lanes }
    requires few { lanes < 2 ^ 40 }
    requires columns { length bits.old ≤ 2 ^ 57 * lanes }
    ensures { TellEdges (length bits.new) lanes Beside bits.new (drawn_edges plan.now) }
{
    for (i, lit) in bits.iter_mut().enumerate() {
        *lit = is_lit(plan, Edge::Beside((i / lanes) as u64, (i % lanes) as u64));
    }
}

// Sets the bits of the edges on the north sides of blocks to whether they are lit at generation 0.
#[tactic(auto, using(crate::proofs::Bits::column_near))]
fn light_above(plan: &Plan, lanes: usize, bits: &mut [bool])
    requires admissible { IsAdmissible plan.now }
    requires some { 0 < lanes }
    requires few { lanes < 2 ^ 40 }
    requires columns { length bits.old ≤ 2 ^ 57 * lanes }
    ensures { TellEdges (length bits.new) lanes Above bits.new (drawn_edges plan.now) }
{
    for (i, lit) in bits.iter_mut().enumerate() {
        *lit = is_lit(plan, Edge::Above((i / lanes) as u64, (i % lanes) as u64));
    }
}

// The bit of a block, or false if it has none.
fn is_set(bits: &[bool], lanes: usize, column: u64, lane: u64) -> bool
    ensures { result ≡ (nat_lt lane lanes && flag_at bits.now (column * lanes + lane)) }
{
    if lane >= lanes as u64 {
        return false;
    }
    let place = column as u128 * lanes as u128 + lane as u128;
    if place >= bits.len() as u128 {
        return false;
    }
    bits[place as usize]
}
