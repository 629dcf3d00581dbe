// Drawings in which all nets are seen.

use crate::copies::copy_with;
use crate::nets::SeenPort;
use crate::search::draw_list;
use crate::seen::{SeenDrawing, with_net_ports};
use cell_core::{CellList, Src};
use gate_library::Drawing;
use lists::{List, OutOfMemory};
use std::alloc::Global;
use std::collections::BTreeSet;
use std::mem;
use strand_core::Effort;
use strand_drawings::Drawn;

// The sources of the nets that are drawn nowhere, each of them once.
fn unseen_sources(
    alloc: Global,
    nets: &[Src],
    ports: &[Option<SeenPort>],
) -> Result<Vec<Src>, OutOfMemory> {
    let mut known = BTreeSet::new(alloc);
    let mut sources = Vec::new(alloc);
    for (k, source) in nets.iter().enumerate() {
        if let Some(Some(_)) = ports.get(k) {
            continue;
        }
        if known.insert(*source)? {
            sources.push(*source)?;
        }
    }
    Ok(sources)
}

// Leaves a drawing its first outputs alone.
fn keep_outputs(alloc: Global, drawing: &mut Drawing, count: usize) {
    let mut outs = mem::replace(&mut drawing.outs, List::of(Vec::new(alloc))).into_vec();
    outs.truncate(count);
    drawing.outs = List::of(outs);
}

// The list with further outputs, without its nets.
fn with_outputs(
    alloc: Global,
    list: &CellList,
    more: &[Src],
) -> Result<Option<CellList>, OutOfMemory> {
    let mut outs = list.outs.as_slice().to_vec(alloc)?;
    outs.extend_from_slice(more)?;
    copy_with(alloc, list, outs, Vec::new(alloc))
}

// A drawing of a list in which these further sources are drawn as outputs.
fn drawn_with(alloc: Global, list: &CellList, more: &[Src]) -> Result<Option<Drawn>, OutOfMemory> {
    match with_outputs(alloc, list, more)? {
        Some(longer) => {
            let drawn = draw_list(alloc, &longer, Effort::Whole);
            drop(longer);
            drawn
        }
        None => Ok(None),
    }
}

// A drawing of a list in which these sources, which an earlier drawing lacks, are seen.
fn drawn_anew(
    alloc: Global,
    list: &CellList,
    more: &[Src],
) -> Result<Option<SeenDrawing>, OutOfMemory> {
    let Some(mut drawn) = drawn_with(alloc, list, more)? else {
        return Ok(None);
    };
    keep_outputs(alloc, &mut drawn.drawing, list.outs.len());
    Ok(Some(with_net_ports(alloc, list, drawn)?))
}

/// Returns a drawing in which all nets of the list are seen, if the search finds one: this one or, if
/// some are drawn nowhere in it, one in which their sources are drawn as further outputs.
pub fn with_all_nets(
    alloc: Global,
    list: &CellList,
    seen: SeenDrawing,
) -> Result<Option<SeenDrawing>, OutOfMemory> {
    match unseen_sources(alloc, list.nets.as_slice(), &seen.ports) {
        Ok(more) => {
            if more.is_empty() {
                return Ok(Some(seen));
            }
            drop(seen);
            drawn_anew(alloc, list, &more)
        }
        Err(error) => {
            drop(seen);
            Err(error)
        }
    }
}
