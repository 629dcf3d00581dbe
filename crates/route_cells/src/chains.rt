// Rows of latches.
ghost use Rattle.std.specs.Prelude.{◌≡◌, length, IfOk, IfSome};
ghost use Rattle.route_cells.specs.Chains.{IsLatch, LatchesLeadBack};

use cell_core::{CellList, Src, is_same_src};
use lists::OutOfMemory;
use std::alloc::Global;

// A latch's start bit, and what it reads.
#[derive(Clone, Copy)]
struct LatchRow {
    reads: Src,
    start: bool,
}

// The latch that a source is, if it is one that is there.
fn latch_of(list: &CellList, src: Src) -> Option<LatchRow>
    ensures { IfSome result (λ row. IsLatch list.now src row.reads row.start) }
{
    let Src::Latch(l) = src else {
        return None;
    };
    let l = l as usize;
    if l >= list.latches.len() {
        return None;
    }
    Some(LatchRow {
        reads: *list.latches.get(l),
        start: *list.starts.get(l),
    })
}

/// Returns the start bits of as many latches as lead back from the source `to` to the source `from`,
/// the last latch's first; or nothing if they do not.
pub fn start_bits(
    alloc: Global,
    list: &CellList,
    from: Src,
    to: Src,
    latches: u32,
) -> Result<Option<Vec<bool>>, OutOfMemory>
    ensures leads { IfOk result (λ o. IfSome o (λ bits.
        LatchesLeadBack list.now to bits.items from)) }
    ensures all { IfOk result (λ o. IfSome o (λ bits. length bits.items ≡ latches)) }
{
    let mut bits = Vec::new(alloc);
    let mut at = to;
    for _latch in 0..latches {
        let Some(row) = latch_of(list, at) else {
            return Ok(None);
        };
        bits.push(row.start)?;
        at = row.reads;
    }
    if is_same_src(at, from) {
        Ok(Some(bits))
    } else {
        Ok(None)
    }
}
