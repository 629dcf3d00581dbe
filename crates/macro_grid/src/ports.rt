// Whether the ports of a list are on distinct lanes. This takes no memory: it looks at the lanes in
// spans, with a mark for each lane of a span, and only at spans that have ports.
ghost use Rattle.std.specs.Prelude.{◌≡◌, ◌≢◌, ◌+◌, ◌<◌, ◌≤◌, ◌⊎◌, ◌↔◌, IsTrue, All, AllPairs, MatchOption};
ghost use Rattle.lane_core.specs.Places.{AreDistinctBelow};
ghost use Rattle.macro_grid.specs.Spans.{AreDistinctWithin, IsLeastFrom};

// The lanes of a span: 64 KiB of marks on the stack.
const SPAN: usize = 65_536;

/// Returns whether the lanes are below a limit and no two are the same.
pub fn are_distinct_below(lanes: &[u32], limit: u32) -> bool
    ensures { IsTrue result ↔ AreDistinctBelow limit lanes.now }
{
    are_below(lanes, limit) && are_distinct(lanes)
}

fn are_below(lanes: &[u32], limit: u32) -> bool
    ensures { IsTrue result ↔ All (λ lane. lane < limit) lanes.now }
{
    lanes.iter().all(|lane| *lane < limit)
}

// Whether no two lanes are the same. Each span begins at the least lane that no earlier span has.
fn are_distinct(lanes: &[u32]) -> bool
    ensures { IsTrue result ↔ AllPairs (λ a b. a ≢ b) lanes.now }
{
    let mut from = 0;
    while let Some(least) = least_from(lanes, from) {
        if !are_distinct_in_span(lanes, least) {
            return false;
        }
        from = least as u64 + SPAN as u64;
    }
    true
}

// The least of the lanes from `from` on.
fn least_from(lanes: &[u32], from: u64) -> Option<u32>
    ensures { MatchOption result (All (λ lane. lane < from) lanes.now)
        (IsLeastFrom from lanes.now) }
{
    let mut least = None;
    for lane in lanes {
        if *lane as u64 >= from {
            least = Some(least.unwrap_or(*lane).min(*lane));
        }
    }
    least
}

// The place of a lane in the span that begins at `from`, or `None` if the lane is in another span.
fn place_in_span(lane: u32, from: u32) -> Option<usize>
    ensures { MatchOption result ((lane < from) ⊎ (from + 65536 ≤ lane))
        (λ place. (place < 65536) × (lane ≡ from + place)) }
{
    let place = lane.checked_sub(from)? as usize;
    if place < SPAN { Some(place) } else { None }
}

// Whether no two lanes of the span that begins at `from` are the same.
fn are_distinct_in_span(lanes: &[u32], from: u32) -> bool
    ensures { IsTrue result ↔ AreDistinctWithin from (from + 65536) lanes.now }
{
    let mut marks = [false; SPAN];
    for lane in lanes {
        if let Some(place) = place_in_span(*lane, from) {
            if marks[place] {
                return false;
            }
            marks[place] = true;
        }
    }
    true
}
