// Signals of small plans, block by block.
ghost use Rattle.lane_core.specs.Plans.{IsAdmissible};
ghost use Rattle.macro_grid.specs.Edges.{IsEdgesOf};
ghost use Rattle.plan_layout.specs.Starts.{HasStartEdges};

use lane_core::Plan;
use macro_grid::{Edges, macro_step};
use std::alloc::Global;
use std::mem;

/// What the signals of a plan do: they stay dark; or an electron goes round the first of three loops; or the 1 of the
/// second cycle of a tape moves to the west side of the next tile with each macro step.
#[derive(Clone, Copy)]
pub enum Course {
    StaysDark,
    GoesRound,
    RunsIn,
}

// Whether no edge on the west or north side of a block in the first three columns and lanes is lit.
fn are_dark(edges: &Edges) -> bool {
    for block in 0..9 {
        if edges.beside(block / 3, block % 3) || edges.above(block / 3, block % 3) {
            return false;
        }
    }
    true
}

// Which of the edges on the west sides of a column's first three blocks are lit.
fn lit(edges: &Edges, column: u64) -> [bool; 3] {
    [
        edges.beside(column, 0),
        edges.beside(column, 1),
        edges.beside(column, 2),
    ]
}

// Whether the edges after so many macro steps are as the signals do. With three columns, a loop has 2 * 3 + 4 * 3
// tiles. The return reverses the lanes: lane 0 leads to lane 2, and lane 2 to lane 0.
fn is_kept(edges: &Edges, course: Course, steps: u64) -> bool {
    match course {
        Course::StaysDark => are_dark(edges),
        Course::GoesRound => lit(edges, 3) == [steps % 36 == 0, false, steps == 18],
        Course::RunsIn => edges.beside(steps, 0),
    }
}

// Whether the edges do this for so many macro steps.
fn are_kept(
    plan: &Plan,
    edges: &mut Edges,
    following: &mut Edges,
    course: Course,
    states: u64,
) -> bool
    requires admissible { IsAdmissible plan.now }
    requires edges { IsEdgesOf plan.now edges.old }
    requires following { IsEdgesOf plan.now following.old }
{
    for steps in 0..states {
        if !is_kept(edges, course, steps) {
            return false;
        }
        macro_step(plan, edges, following);
        mem::swap(edges, following);
    }
    true
}

// Whether the edges do this for so many macro steps, from these on.
fn keeps_from(alloc: Global, plan: &Plan, edges: &mut Edges, course: Course, states: u64) -> bool
    requires admissible { IsAdmissible plan.now }
    requires starts { HasStartEdges plan.now }
    requires edges { IsEdgesOf plan.now edges.old }
{
    match Edges::start(alloc, plan) {
        Ok(mut following) => {
            let are_kept = are_kept(plan, edges, &mut following, course, states);
            drop(following);
            are_kept
        }
        Err(_) => false,
    }
}

/// Returns whether the signals of a plan do this, from the start on: for a macro step, for 36 or for 8.
pub fn keeps_course(alloc: Global, plan: &Plan, course: Course) -> bool
    requires admissible { IsAdmissible plan.now }
    requires starts { HasStartEdges plan.now }
{
    let states = match course {
        Course::StaysDark => 2,
        Course::GoesRound => 37,
        Course::RunsIn => 9,
    };
    match Edges::start(alloc, plan) {
        Ok(mut edges) => {
            let keeps = keeps_from(alloc, plan, &mut edges, course, states);
            drop(edges);
            keeps
        }
        Err(_) => false,
    }
}
