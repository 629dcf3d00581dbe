// Homes of inputs, of loops, and of a dark lane.
ghost use Rattle.std.specs.Prelude.{◌≡◌, ◌≤◌, ◌<◌, ◌+◌, ◌-◌, ◌^◌, ◌++◌, length, map, IfOk, OnOk};
ghost use Rattle.lists.specs.Items.{alone_if, one_if};
ghost use Rattle.std.specs.List.{range_with_len};
ghost use Rattle.lane_core.specs.Places.{AreDistinctBelow};
ghost use Rattle.lane_homes.specs.Homes.{AreHomesAbove};

use crate::apart::are_apart_below;
use std::alloc::{AllocError, Global};

// Adds so many lanes side by side, from `first` on.
fn push_row(lanes: &mut Vec<u32>, first: u32, count: u32) -> Result<(), AllocError>
    requires { first + count < 2 ^ 32 }
    ensures { OnOk result (lanes.new.items ≡
        lanes.old.items ++ map (λ i. first + i) (range_with_len 0 count)) }
{
    let mut at = 0;
    while at < count {
        lanes.push(first + at)?;
        at += 1;
    }
    Ok(())
}

// Lanes for so many inputs, the lowest ones above lane `above`, and lane 0 if one is to stay dark.
fn own_lanes(alloc: Global, above: u32, inputs: u32, is_dark: bool) -> Result<Vec<u32>, AllocError>
    requires { inputs ≤ above }
    ensures { IfOk result (λ lanes.
        lanes.items
        ≡ map (λ i. above - inputs + i) (range_with_len 0 inputs) ++ alone_if is_dark 0
        ) }
{
    let mut lanes = Vec::new(alloc);
    push_row(&mut lanes, above - inputs, inputs)?;
    if is_dark {
        lanes.push(0)?;
    }
    Ok(lanes)
}

// The wanted lanes, if they are as many as are asked for, distinct and above the loops, and else
// those of `own_lanes`.
fn upper_lanes(
    alloc: Global,
    above: u32,
    inputs: u32,
    is_dark: bool,
    wanted: &[u32],
) -> Result<Vec<u32>, AllocError>
    requires room { inputs + one_if is_dark ≤ above }
    requires few { above < 2 ^ 32 - 1 }
    ensures long { IfOk result (λ lanes. length lanes.items ≡ inputs + one_if is_dark) }
    ensures apart { IfOk result (λ lanes. AreDistinctBelow above lanes.items) }
{
    let dark = if is_dark { 1 } else { 0 };
    if wanted.len() == inputs as usize + dark && are_apart_below(alloc, wanted, above)? {
        let lanes = wanted.to_vec(alloc)?;
        return Ok(lanes);
    }
    let lanes = own_lanes(alloc, above, inputs, is_dark)?;
    Ok(lanes)
}

/// Returns the homes of so many inputs, then of so many loops, and then of the dark lane's value if
/// a lane is to stay dark. The loops' homes stand side by side from lane `above` on, and the others
/// above them. `wanted` has the lanes of the inputs, and then the dark one: they are taken if they
/// are as many as are asked for, distinct and above the loops.
pub fn homes_of(
    alloc: Global,
    above: u32,
    inputs: u32,
    loops: u32,
    is_dark: bool,
    wanted: &[u32],
) -> Result<Vec<u32>, AllocError>
    requires room { inputs + one_if is_dark ≤ above }
    requires few { above + loops < 2 ^ 32 - 1 }
    ensures { IfOk result (λ homes. AreHomesAbove above inputs loops is_dark homes.items) }
{
    let upper = upper_lanes(alloc, above, inputs, is_dark, wanted)?;
    let (ins, dark) = upper.split_at(inputs as usize);
    let mut homes = Vec::new(alloc);
    homes.extend_from_slice(ins)?;
    push_row(&mut homes, above, loops)?;
    homes.extend_from_slice(dark)?;
    Ok(homes)
}
