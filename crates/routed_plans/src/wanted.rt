// The list of cells with which a drawing is matched.
ghost use Rattle.std.specs.Prelude.{◌≡◌, ◌++◌, get_or, option_map, None, IfOk, IfSome, OnOk};
ghost use Rattle.std.specs.Option.{option_to_list};
ghost use Rattle.routed_plans.specs.Drawn.{items_drawn};
ghost use Rattle.routed_plans.specs.Wanted.{IsWanted};

use crate::copies::copy_with;
use crate::nets::SeenPort;
use cell_core::{CellList, Src};
use lists::OutOfMemory;
use std::alloc::Global;

// The source of net `k`, if its port is drawn.
fn drawn_source(ports: &[Option<SeenPort>], k: usize, source: Src) -> Option<Src>
    ensures { result ≡ option_map (λ _. source) (get_or ports.now k None) }
{
    match ports.get(k) {
        Some(Some(_)) => Some(source),
        _ => None,
    }
}

fn offer(sources: &mut Vec<Src>, source: Option<Src>) -> Result<(), OutOfMemory>
    ensures { OnOk result (sources.new.items ≡ sources.old.items ++ option_to_list source) }
{
    if let Some(source) = source {
        sources.push(source)?;
    }
    Ok(())
}

// The sources of the nets whose ports are drawn.
fn drawn_sources(
    alloc: Global,
    ports: &[Option<SeenPort>],
    nets: &[Src],
) -> Result<Vec<Src>, OutOfMemory>
    ensures { IfOk result (λ sources. sources.items ≡ items_drawn ports.now nets.now) }
{
    let mut sources = Vec::new(alloc);
    for k in 0..nets.len() {
        offer(&mut sources, drawn_source(ports, k, nets[k]))?;
    }
    Ok(sources)
}

/// Copies a list of cells with those of its nets alone whose ports are drawn.
pub fn wanted_list(
    alloc: Global,
    list: &CellList,
    ports: &[Option<SeenPort>],
) -> Result<Option<CellList>, OutOfMemory>
    ensures { IfOk result (λ o. IfSome o (λ wanted. IsWanted ports.now wanted list.now)) }
{
    let outs = list.outs.as_slice().to_vec(alloc)?;
    let nets = drawn_sources(alloc, ports, list.nets.as_slice())?;
    copy_with(alloc, list, outs, nets)
}
