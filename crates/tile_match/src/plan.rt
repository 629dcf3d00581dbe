// The plan that a pattern with a port table shows, if some plan has its box and ports.
ghost use Rattle.std.specs.Prelude.{◌≡◌, ◌<◌, ◌≤◌, ◌-◌, ◌*◌, ◌+◌, ◌^◌, [], IfOk, MatchOption};
ghost use Rattle.ww_rule.specs.Patterns.{grid_of};
ghost use Rattle.tile_match.specs.Circuit.{HasSomePlan};
ghost use Rattle.tile_match.specs.Read.{IsPlanRead, IsBodyRead};

use crate::columns::columns_shown;
use crate::lanes::distinct_lanes;
use crate::size::{Size, size_in};
use crate::starts::starts_shown;
use lane_core::Plan;
use lists::List;
use pattern_reading::Ports;
use std::alloc::{AllocError, Global};
use ww_rule::{CellRows, Pattern};

// A plan of this size without ports, with the columns and the starts that rows of cells show.
fn body_shown(alloc: Global, rows: &CellRows, size: Size) -> Result<Plan, AllocError>
    requires few { size.columns < 2 ^ 40 }
    requires loops { size.loops ≤ size.lanes }
    ensures { IfOk result (λ plan. IsBodyRead rows.now size.lanes size.columns size.loops plan) }
{
    let columns = columns_shown(alloc, rows, size.lanes, size.loops, size.columns)?;
    let starts = starts_shown(alloc, rows, size.lanes, size.loops)?;
    Ok(Plan {
        lanes: size.lanes,
        columns: List::of(columns),
        latches: size.loops,
        starts,
        ins: List::of(Vec::new(alloc)),
        outs: List::of(Vec::new(alloc)),
        nets: List::of(Vec::new(alloc)),
        tape: List::of(Vec::new(alloc)),
    })
}

/// Returns the plan that the pattern shows, or none if no plan has the box and the ports.
pub fn plan_shown(
    alloc: Global,
    pattern: &Pattern,
    ports: &Ports,
) -> Result<Option<Plan>, AllocError>
    ensures { IfOk result (λ found.
        MatchOption found (HasSomePlan (grid_of pattern.now) ports.now → ⊥) (λ plan.
        IsPlanRead (grid_of pattern.now) ports.now plan × (plan.nets ≡ [])
        )
        ) }
{
    if ports.c != 1 {
        return Ok(None);
    }
    let Some(size) = size_in(pattern.width, pattern.height, ports.p, ports.l) else {
        return Ok(None);
    };
    let loops = size.loops as u64;
    let free = size.lanes - size.loops;
    let Some(ins) = distinct_lanes(alloc, ports.ins.as_slice(), 32 * loops, free)? else {
        return Ok(None);
    };
    let Some(outs) = distinct_lanes(
        alloc,
        ports.outs.as_slice(),
        32 * (loops + size.columns),
        free,
    )?
    else {
        return Ok(None);
    };
    let body = body_shown(alloc, &pattern.rows, size)?;
    Ok(Some(Plan {
        ins: List::of(ins),
        outs: List::of(outs),
        ..body
    }))
}
