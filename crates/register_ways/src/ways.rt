// The cells of wires around a circuit.

use crate::bundle::Bundle;
use crate::corners::{Corner, Position, add_cells, add_corners};
use crate::frame::{APART, Circuit, Loop, Side};
use crate::laying::{Laying, Outcome};
use crate::plans::{Plan, plan_of};
use lists::OutOfMemory;
use std::alloc::{AllocError, Global};

/// Wires around a circuit in a box of `width` x `height` cells, at a period. The circuit's first cell is in column `west`
/// and row `north`. The cells of the wire of loop `k`, without those in which it leaves the circuit and comes back, are
/// `path[a..b]` for `(a, b) = spans[k]`.
#[derive(Drop)]
pub struct Ways {
    pub width: u32,
    pub height: u32,
    pub west: u32,
    pub north: u32,
    pub period: u32,
    pub path: Vec<(u32, u32)>,
    pub spans: Vec<(u32, u32)>,
}

// No ways yet in the box of a plan.
fn no_ways(alloc: Global, plan: Plan, loops: usize) -> Result<Ways, OutOfMemory> {
    Ok(Ways {
        width: plan.width(),
        height: plan.height(),
        west: plan.frame.lanes.saturating_mul(APART),
        north: plan.north.rows,
        period: plan.period,
        path: Vec::new(alloc),
        spans: vec![in alloc; (0u32, 0u32); loops]?,
    })
}

// Where the cells of a bundle are in the box of a plan.
fn position_of(plan: Plan, side: Side) -> Position {
    let row = match side {
        Side::North => plan.north.rows.saturating_add(plan.frame.circuit.height),
        Side::South => plan.north.rows,
    };
    Position {
        last: plan.frame.last(),
        row,
        side,
    }
}

fn length(path: &[(u32, u32)]) -> u32 {
    u32::try_from(path.len()).unwrap_or(u32::MAX)
}

fn set_span(spans: &mut [(u32, u32)], number: usize, span: (u32, u32)) {
    if number < spans.len() {
        spans[number] = span;
    }
}

/// Adds the cells of the next wire of a bundle.
fn add_way(
    alloc: Global,
    path: &mut Vec<(u32, u32)>,
    position: Position,
    laying: &mut Laying,
    place: u32,
) -> Result<(), AllocError> {
    let Some(track) = laying.bundle.track(place) else {
        return Ok(());
    };
    let Outcome::Laid(course) = laying.next(place) else {
        return Ok(());
    };
    let mut corners = Vec::new(alloc);
    add_corners(&mut corners, laying.bundle, track, course)?;
    add_cells(path, position, corners.as_slice(), course.is_cut)
}

// Adds the cells of all wires of a bundle.
fn add_ways(alloc: Global, ways: &mut Ways, plan: Plan, bundle: Bundle) -> Result<(), AllocError> {
    let position = position_of(plan, bundle.side);
    let mut laying = Laying::new(bundle, plan.period);
    for place in 0..bundle.len() {
        let begin = length(ways.path.as_slice());
        add_way(alloc, &mut ways.path, position, &mut laying, place)?;
        let span = (begin, length(ways.path.as_slice()));
        let number = match bundle.side {
            Side::North => place as usize,
            Side::South => ways
                .spans
                .len()
                .saturating_sub(1)
                .saturating_sub(place as usize),
        };
        set_span(ways.spans.as_mut_slice(), number, span);
    }
    Ok(())
}

/// Leads wires around a circuit whose ends are in the same order at the east and at the west, from north to south. The
/// period is as small as the longest wire asks, and at least `least`. Nothing if there is no room for the wires.
pub fn ways_around(
    alloc: Global,
    loops: &[Loop],
    circuit: Circuit,
    least: u32,
) -> Result<Option<Ways>, OutOfMemory> {
    let Some(plan) = plan_of(loops, circuit, least) else {
        return Ok(None);
    };
    let mut ways = no_ways(alloc, plan, loops.len())?;
    add_ways(alloc, &mut ways, plan, plan.bundle(loops, Side::North))?;
    add_ways(alloc, &mut ways, plan, plan.bundle(loops, Side::South))?;
    Ok(Some(ways))
}
