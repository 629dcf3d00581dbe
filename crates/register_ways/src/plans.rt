// How wires are led around a circuit: how many of them around its north, and how high their bumps are.

use crate::bundle::Bundle;
use crate::frame::{Circuit, Frame, Loop, Side};
use crate::laying::{Outcome, rows_at};

// How often a period is raised until all wires of a bundle, or of both, take it.
const ROUNDS: u32 = 8;

// How many heights of bumps are tried at most.
const HEIGHTS: u32 = 160;

// How many ways of parting the wires are tried at most.
const PARTS: usize = 32;

// So many wires are parted where the outputs stand, if these stand together.
const MANY: usize = 16;

/// A plan for wires around a circuit: the first `parted` ones go around its north. The bumps are so high at either side,
/// and the wires take so many rows there.
#[derive(Clone, Copy)]
pub struct Plan {
    pub frame: Frame,
    pub parted: usize,
    pub period: u32,
    pub north: Belt,
    pub south: Belt,
}

/// How high a bundle's bumps are, and how many rows it takes.
#[derive(Clone, Copy)]
pub struct Belt {
    pub high: u32,
    pub rows: u32,
}

impl Plan {
    /// Returns the height of the box.
    pub fn height(self) -> u32 {
        self.frame
            .circuit
            .height
            .saturating_add(self.north.rows)
            .saturating_add(self.south.rows)
    }

    /// Returns the width of the box.
    pub fn width(self) -> u32 {
        self.frame.last().saturating_add(1)
    }

    fn area(self) -> u64 {
        u64::from(self.width()).saturating_mul(u64::from(self.height()))
    }

    // The square of the box, times the period.
    fn cost(self) -> u128 {
        let area = u128::from(self.area());
        area.saturating_mul(area)
            .saturating_mul(u128::from(self.period))
    }

    /// Returns the bundle around a side.
    pub fn bundle(self, loops: &[Loop], side: Side) -> Bundle {
        let (loops, high) = match side {
            Side::North => (first_ones(loops, self.parted), self.north.high),
            Side::South => (last_ones(loops, self.parted), self.south.high),
        };
        Bundle {
            loops,
            frame: self.frame,
            side,
            high,
        }
    }
}

fn first_ones(loops: &[Loop], parted: usize) -> &[Loop] {
    if parted < loops.len() {
        &loops[..parted]
    } else {
        loops
    }
}

fn last_ones(loops: &[Loop], parted: usize) -> &[Loop] {
    if parted < loops.len() {
        &loops[parted..]
    } else {
        &[]
    }
}

// The least period, from this one on, at which a bundle can be laid, and the rows that it takes then.
fn settled(bundle: Bundle, period: u32) -> Option<(u32, u32)> {
    let mut period = period;
    for _ in 0..ROUNDS {
        match rows_at(bundle, period) {
            Outcome::Laid(rows) => return Some((period, rows)),
            Outcome::Late(least) => period = least,
            Outcome::NoRoom => return None,
        }
    }
    None
}

// The height of bumps after this one.
fn next_height(high: u32) -> u32 {
    high.saturating_add(1).saturating_add(high / 16).max(3)
}

// The square of the height of the box if a bundle takes so many rows, times the period.
fn belt_cost(bundle: Bundle, period: u32, rows: u32) -> u128 {
    let height = u128::from(
        bundle
            .frame
            .circuit
            .height
            .saturating_add(rows)
            .saturating_add(rows),
    );
    height
        .saturating_mul(height)
        .saturating_mul(u128::from(period))
}

// The heights of bumps and the period at which a bundle is cheapest, from a period on. Bumps over twice as high as the
// least with which it can be laid are not tried.
fn cheapest_belt(bundle: Bundle, least: u32) -> Option<(u32, Belt)> {
    let (mut best, mut best_cost) = (None, u128::MAX);
    let (mut high, mut most) = (0, u32::MAX);
    for _ in 0..HEIGHTS {
        if high > most {
            return best;
        }
        if let Some((period, rows)) = settled(Bundle { high, ..bundle }, least) {
            most = most.min(high.saturating_mul(2).max(3));
            let cost = belt_cost(bundle, period, rows);
            if cost < best_cost {
                (best, best_cost) = (Some((period, Belt { high, rows })), cost);
            }
        }
        high = next_height(high);
    }
    best
}

// The plan with the same period on both sides, from that of a plan on.
fn settled_plan(loops: &[Loop], plan: Plan) -> Option<Plan> {
    let mut plan = plan;
    for _ in 0..ROUNDS {
        let (north, belt) = cheapest_belt(plan.bundle(loops, Side::North), plan.period)?;
        plan.north = belt;
        let (south, belt) = cheapest_belt(plan.bundle(loops, Side::South), plan.period)?;
        plan.south = belt;
        let period = north.max(south);
        if north == south {
            plan.period = period;
            return Some(plan);
        }
        plan.period = period;
    }
    None
}

// The cheaper one of two plans.
fn cheaper(best: Option<Plan>, next: Option<Plan>) -> Option<Plan> {
    match (best, next) {
        (Some(a), Some(b)) if a.cost() <= b.cost() => best,
        (_, Some(_)) => next,
        (_, None) => best,
    }
}

// The cheapest plan of wires of which so many go around the north.
fn parted_plan(loops: &[Loop], circuit: Circuit, parted: usize, period: u32) -> Option<Plan> {
    let lanes = parted.max(loops.len().saturating_sub(parted));
    let none = Belt { high: 0, rows: 0 };
    let plan = Plan {
        frame: Frame {
            circuit,
            lanes: u32::try_from(lanes).unwrap_or(u32::MAX),
        },
        parted,
        period,
        north: none,
        south: none,
    };
    settled_plan(loops, plan)
}

// The cheapest plan whose period is at least this one.
fn cheapest_plan(loops: &[Loop], circuit: Circuit, period: u32) -> Option<Plan> {
    let step = loops.len() / PARTS;
    let mut best = None;
    let mut parted = 0usize;
    for _ in 0..PARTS.saturating_mul(2) {
        if parted > loops.len() {
            return best;
        }
        best = cheaper(best, parted_plan(loops, circuit, parted, period));
        parted = parted.saturating_add(step).saturating_add(1);
    }
    best
}

// The second one of two plans, if it does not cost much more than the first one; else the first one.
fn preferred(best: Option<Plan>, other: Option<Plan>) -> Option<Plan> {
    match (best, other) {
        (Some(a), Some(b)) if a.cost() < b.cost() / 4 * 3 => best,
        (_, Some(_)) => other,
        (_, None) => best,
    }
}

/// Returns the cheapest plan for wires around a circuit whose period is at least this one. If there are many and the
/// outputs stand together, they part there, unless that costs much more. Nothing if there is no room for the wires.
pub fn plan_of(loops: &[Loop], circuit: Circuit, period: u32) -> Option<Plan> {
    let best = cheapest_plan(loops, circuit, period);
    match circuit.gap {
        Some(gap) if loops.len() >= MANY => {
            preferred(best, parted_plan(loops, circuit, gap, period))
        }
        _ => best,
    }
}
