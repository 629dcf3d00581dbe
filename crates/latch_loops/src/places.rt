// The places of nets in columns.
ghost use Rattle.std.specs.Prelude.{◌≡◌, ◌<◌, ◌+◌, length, take, map, All, IfOk};
ghost use Rattle.std.specs.Option.{ForSome};
ghost use Rattle.lane_core.specs.Instrs.{is_on};
ghost use Rattle.column_packer.specs.Numbers.{column_numbers, used_by};
ghost use Rattle.latch_loops.specs.Places.{last_of, closed_place};

use crate::CloseError;
use lane_core::{Instr, NetPlace};
use std::alloc::Global;

fn is_on(lane: u32, instr: Instr) -> bool
    ensures { result ≡ is_on lane instr }
{
    instr.lane() == lane || instr.lane() as u64 + 1 == lane as u64
}

// The column of the last instruction on a lane, of those up to number n.
fn last_column(instrs: &[Instr], numbers: &[usize], lane: u32, n: usize) -> Option<u64>
    requires known { n < length instrs.now }
    requires numbers { numbers.now ≡ column_numbers instrs.now }
    ensures { result ≡ last_of (used_by (take (n + 1) instrs.now) lane) }
{
    let mut left = n + 1;
    while left > 0 {
        left -= 1;
        if is_on(lane, instrs[left]) {
            return Some(numbers[left] as u64);
        }
    }
    None
}

fn closed_place(instrs: &[Instr], numbers: &[usize], place: NetPlace) -> NetPlace
    requires within { ForSome place.after (λ n. n < length instrs.now) }
    requires numbers { numbers.now ≡ column_numbers instrs.now }
    ensures { result ≡ closed_place instrs.now place }
{
    let after = match place.after {
        None => None,
        Some(n) => last_column(instrs, numbers, place.lane, n as usize),
    };
    NetPlace {
        lane: place.lane,
        after,
    }
}

/// Returns the places of nets in columns, from their places after instructions.
pub fn closed_places(
    alloc: Global,
    places: &[NetPlace],
    instrs: &[Instr],
    numbers: &[usize],
) -> Result<Vec<NetPlace>, CloseError>
    requires within { All (λ place. ForSome place.after (λ n. n < length instrs.now)) places.now }
    requires numbers { numbers.now ≡ column_numbers instrs.now }
    ensures { IfOk result (λ v. v.items ≡ map (closed_place instrs.now) places.now) }
{
    let mut closed = Vec::new(alloc);
    for place in places {
        closed.push(closed_place(instrs, numbers, *place))?;
    }
    Ok(closed)
}
