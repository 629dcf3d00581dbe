// The sources that leave a plan's columns.
ghost use Rattle.std.specs.Prelude.{◌≡◌, ◌≤◌, ◌<◌, IfOk};
ghost use Rattle.circuit_plans.specs.Lifted.{source_on, sources_on, sources_leaving};

use cell_core::Src;
use std::alloc::{AllocError, Global};

fn source_on(sources: &[Src], lane: usize) -> Src
    ensures { result ≡ source_on sources.now lane }
{
    match sources.get(lane) {
        Some(source) => *source,
        None => Src::Zero,
    }
}

/// Returns the sources on these lanes.
pub fn sources_on(alloc: Global, sources: &[Src], lanes: &[u32]) -> Result<Vec<Src>, AllocError>
    ensures { IfOk result (λ on. on.items ≡ sources_on sources.now lanes.now) }
{
    let mut on = Vec::new(alloc);
    for lane in lanes {
        on.push(source_on(sources, *lane as usize))?;
    }
    Ok(on)
}

/// Returns the sources on the lanes of so many loops; the first loop leaves on the lowest lane.
pub fn sources_leaving(
    alloc: Global,
    sources: &[Src],
    lanes: u32,
    loops: u32,
) -> Result<Vec<Src>, AllocError>
    requires { loops ≤ lanes }
    ensures { IfOk result (λ on. on.items ≡ sources_leaving sources.now lanes loops) }
{
    let mut on = Vec::new(alloc);
    for number in 0..loops {
        on.push(source_on(sources, (lanes - 1 - number) as usize))?;
    }
    Ok(on)
}
