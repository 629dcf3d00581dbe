// Marks for lanes: which of them have a port.
ghost use Rattle.std.specs.Prelude.{◌≡◌, ◌≢◌, ◌<◌, ◌↔◌, ◌==◌, ℕ, IsTrue, All, AllPairs, IfOk};
ghost use Rattle.lists.specs.Items.{flag_at};
ghost use Rattle.std.specs.List.{list_any};

use std::alloc::{AllocError, Global};

/// Returns whether no lane stands twice. All lanes are below the limit.
pub fn are_distinct(alloc: Global, lanes: &[u32], limit: u32) -> Result<bool, AllocError>
    requires below { All (λ lane. lane < limit) lanes.now }
    ensures { IfOk result (λ distinct. IsTrue distinct ↔ AllPairs (λ a b. a ≢ b) lanes.now) }
{
    let mut marks = vec![in alloc; false; limit as usize]?;
    for lane in lanes {
        let place = *lane as usize;
        if marks[place] {
            return Ok(false);
        }
        marks[place] = true;
    }
    Ok(true)
}

/// Returns a mark for each lane below the limit: whether it is one of `lanes`.
pub fn marks_of(alloc: Global, lanes: &[u32], limit: u32) -> Result<Vec<bool>, AllocError>
    requires below { All (λ lane. lane < limit) lanes.now }
    ensures { IfOk result (λ marks.
        (lane : ℕ) → flag_at marks.items lane ≡ list_any (λ out. out == lane) lanes.now
        ) }
{
    let mut marks = vec![in alloc; false; limit as usize]?;
    for lane in lanes {
        marks[*lane as usize] = true;
    }
    Ok(marks)
}

/// Returns whether a lane is marked.
pub fn is_marked(marks: &[bool], lane: u64) -> bool
    ensures { result ≡ flag_at marks.now lane }
{
    match marks.get(lane as usize) {
        Some(mark) => *mark,
        None => false,
    }
}
