// How loops' data go down to their lanes: a search for exchanges, whose answer is checked.
ghost use Rattle.std.specs.Prelude.{◌≡◌, ◌<◌, ◌≤◌, ◌+◌, length, true, IfOk, IfSome};
ghost use Rattle.row_placer.specs.declared.roles.Role.TheVariants.{Port};
ghost use Rattle.row_placer.specs.Told.{tag, tag_on, Rearranged};
ghost use Rattle.row_placer.specs.Ready.{AreSettled};
ghost use Rattle.row_placer.specs.Settling.{Exchanges, Settles};
ghost use Rattle.channel_router.specs.Routes.{swapped};

use crate::{Job, PlaceError, Role, Tag};
use std::alloc::Global;

// More columns than a search comes to: it ends when no neighbours stand the wrong way round.
const MOST_TURNS: u32 = u32::MAX;

// A lane on which loops' data go down: how low the lane of what stands on it is, and from which
// column it is idle.
#[derive(Clone, Copy)]
struct Settling {
    depth: u32,
    idle: u64,
}

// The column from which a lane and the next one are idle, if they stand the wrong way round: a
// loop's datum above what is none, or above one that belongs lower.
fn wrong_from(lanes: &[Settling], lane: u32) -> Option<u64> {
    let lane = lane as usize;
    if lane.saturating_add(1) >= lanes.len() {
        return None;
    }
    let (upper, lower) = (lanes[lane], lanes[lane + 1]);
    if upper.depth > lower.depth {
        Some(upper.idle.max(lower.idle))
    } else {
        None
    }
}

// Exchanges what stands on a lane and on the next one, which are idle from a column then. Returns
// the lane to which the datum on the upper one goes, or that lane itself if a datum stands on both.
fn swap(lanes: &mut [Settling], lane: u32, idle: u64) -> u32 {
    let at = lane as usize;
    if at.saturating_add(1) >= lanes.len() {
        return lane;
    }
    let (upper, lower) = (lanes[at].depth, lanes[at + 1].depth);
    lanes[at] = Settling { depth: lower, idle };
    lanes[at + 1] = Settling { depth: upper, idle };
    if lower > 0 {
        lane
    } else {
        lane.saturating_add(1)
    }
}

// Exchanges a datum, by its lane, and what stands below it, if they stand the wrong way round and
// are idle at a column. Returns the next column at which they may be exchanged, if there is one.
fn settle_datum(
    lanes: &mut [Settling],
    lane: &mut u32,
    swaps: &mut Vec<u32>,
    time: u64,
) -> Result<Option<u64>, PlaceError> {
    match wrong_from(lanes, *lane) {
        Some(idle) if idle <= time => {
            swaps.push(*lane)?;
            *lane = swap(lanes, *lane, idle.saturating_add(1));
            Ok(Some(time.saturating_add(1)))
        }
        idle => Ok(idle),
    }
}

// From the lowest lane up, exchanges neighbours that stand the wrong way round and are idle at a
// column. Returns the next column at which there may be such neighbours, if there is one.
fn settle_at(
    lanes: &mut [Settling],
    data: &mut [u32],
    swaps: &mut Vec<u32>,
    time: u64,
) -> Result<Option<u64>, PlaceError> {
    let mut next = None;
    for datum in 0..data.len() {
        let idle = settle_datum(lanes, &mut data[datum], swaps, time)?;
        next = match (next, idle) {
            (Some(first), Some(second)) => Some(first.min(second)),
            (None, only) | (only, None) => only,
        };
    }
    Ok(next)
}

// Settles the loops column by column.
fn settle(
    lanes: &mut [Settling],
    data: &mut [u32],
    swaps: &mut Vec<u32>,
) -> Result<(), PlaceError> {
    let mut time = 0;
    for _ in 0..MOST_TURNS {
        match settle_at(lanes, data, swaps, time)? {
            Some(next) => time = next,
            None => return Ok(()),
        }
    }
    Ok(())
}

/// Returns exchanges of neighbouring lanes, each by its upper lane, that are to bring the data of so
/// many loops to the lowest lanes, the first to the lowest: column by column, neighbours that stand
/// the wrong way round are exchanged as soon as both are idle. `settles` says whether they do.
pub fn settling_swaps(
    alloc: Global,
    tags: &[Tag],
    clocks: &[u64],
    loops: u32,
) -> Result<Vec<u32>, PlaceError> {
    let mut lanes = settling_lanes(alloc, tags, clocks, loops)?;
    let mut data = lanes_of_data(alloc, &lanes)?;
    let mut swaps = Vec::new(alloc);
    settle(lanes.as_mut_slice(), data.as_mut_slice(), &mut swaps)?;
    Ok(swaps)
}

/// Returns `true` only if exchanges are at most as many as so many loops times the lanes, and bring
/// the loops' data to their lanes.
pub fn settles(
    alloc: Global,
    job: &Job,
    loops: u32,
    tags: &[Tag],
    swaps: &[u32],
) -> Result<bool, PlaceError>
    requires loops { loops ≤ length job.now.ports }
    requires lanes { loops ≤ length tags.now }
    ensures { IfOk result (λ yes. yes ≡ true → Settles job.now loops tags.now swaps.now) }
{
    if swaps.len() > (loops as usize).saturating_mul(tags.len()) {
        return Ok(false);
    }
    match exchanged(alloc, tags, swaps)? {
        Some(after) => Ok(are_settled(job, loops, &after)),
        None => Ok(false),
    }
}

// The tags after exchanges of neighbours, if these are on the lanes.
fn exchanged(alloc: Global, tags: &[Tag], swaps: &[u32]) -> Result<Option<Vec<Tag>>, PlaceError>
    ensures { IfOk result (λ o. IfSome o (λ after. Exchanges tags.now swaps.now after.items)) }
{
    let mut after = tags.to_vec(alloc)?;
    let mut next = 0;
    while next < swaps.len() {
        let lane = swaps[next] as usize;
        if lane + 1 >= after.len() {
            return Ok(None);
        }
        exchange(&mut after, lane);
        next += 1;
    }
    Ok(Some(after))
}

// Exchanges the tags of two neighbours.
fn exchange(tags: &mut Vec<Tag>, lane: usize)
    requires { lane + 1 < length tags.old.items }
    ensures long { length tags.new.items ≡ length tags.old.items }
    ensures moved { Rearranged tags.old.items tags.new.items (swapped lane) }
{
    let upper = tags[lane + 1];
    let lower = tags[lane];
    tags[lane] = upper;
    tags[lane + 1] = lower;
}

// Whether so many loops stand on their lanes if the lanes have these tags.
fn are_settled(job: &Job, loops: u32, tags: &[Tag]) -> bool
    requires loops { loops ≤ length job.now.ports }
    requires lanes { loops ≤ length tags.now }
    ensures { result ≡ true → AreSettled job.now loops tags.now }
{
    let mut port = 0;
    while port < loops {
        let value = *job.ports.get(port as usize);
        if !has_port(tags, tags.len() - 1 - port as usize, value, port) {
            return false;
        }
        port += 1;
    }
    true
}

// Whether a port's value stands on a lane.
fn has_port(tags: &[Tag], lane: usize, value: u32, port: u32) -> bool
    requires { lane < length tags.now }
    ensures { result ≡ true → tag_on tags.now lane ≡ tag value (Port port) }
{
    tags[lane].is(value, Role::Port(port))
}

// The lanes before any exchange, with these tags, and idle from these columns.
fn settling_lanes(
    alloc: Global,
    tags: &[Tag],
    clocks: &[u64],
    loops: u32,
) -> Result<Vec<Settling>, PlaceError> {
    let mut lanes = Vec::with_capacity(alloc, tags.len())?;
    for lane in 0..tags.len() {
        // the greater, the lower the datum's own lane; 0 for what is none
        let depth = match tags[lane].role {
            Role::Port(port) => loops.saturating_sub(port),
            _ => 0,
        };
        let idle = clocks.get(lane).copied().unwrap_or(0);
        lanes.push(Settling { depth, idle })?;
    }
    Ok(lanes)
}

// The lanes of loops' data, from the lowest up.
fn lanes_of_data(alloc: Global, lanes: &[Settling]) -> Result<Vec<u32>, PlaceError> {
    let mut data = Vec::new(alloc);
    let mut lane: u32 = 0;
    for settling in lanes {
        if settling.depth > 0 {
            data.push(lane)?;
        }
        lane = lane.saturating_add(1);
    }
    data.reverse();
    Ok(data)
}
