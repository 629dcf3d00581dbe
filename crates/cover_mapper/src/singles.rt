// Covers that are one cell each.
ghost use Rattle.std.specs.Prelude.{◌≡◌, ◌++◌, [], cond, IfOk, OnOk};
ghost use Rattle.std.specs.List.{filter_map};
ghost use Rattle.std.specs.Option.{option_to_list};
ghost use Rattle.cover_mapper.specs.Singles.{is_single, single_source};

use crate::MapError;
use crate::classes::source_of;
use cell_core::Src;
use cover_cells::single_cell;
use netlist_core::{Flat, Node};
use netlist_meaning::class_of;
use std::alloc::Global;

// Whether the cover of a node is one cell, whichever sources it reads.
fn is_single(node: &Node) -> bool
    ensures { result ≡ is_single node.now }
{
    let sources = [Src::Zero, Src::Zero];
    node.ins.len() == 2 && single_cell(&sources, node.rows.as_slice(), node.on).is_some()
}

// The source of a node's class, if its cover is one cell.
fn single_source(flat: &Flat, sources: &[Option<Src>], node: &Node) -> Option<Src>
    ensures { result ≡ single_source flat.now sources.now node.now }
{
    if !is_single(node) {
        return None;
    }
    match source_of(sources, class_of(flat, node.out)) {
        Some(source) => Some(source),
        None => Some(Src::Zero),
    }
}

// Adds the source of a node's class, if its cover is one cell.
fn push_single(
    found: &mut Vec<Src>,
    flat: &Flat,
    sources: &[Option<Src>],
    node: &Node,
) -> Result<(), MapError>
    ensures { OnOk result (
        found.new.items
        ≡ found.old.items ++ option_to_list (single_source flat.now sources.now node.now)
        ) }
{
    if let Some(source) = single_source(flat, sources, node) {
        found.push(source)?;
    }
    Ok(())
}

// The sources of those of the nodes whose covers are one cell, in order.
fn sources_of_singles(
    alloc: Global,
    flat: &Flat,
    sources: &[Option<Src>],
    nodes: &[Node],
) -> Result<Vec<Src>, MapError>
    ensures { IfOk result (λ found.
        found.items ≡ filter_map (single_source flat.now sources.now) nodes.now
        ) }
{
    let mut found = Vec::new(alloc);
    for node in nodes {
        push_single(&mut found, flat, sources, node)?;
    }
    Ok(found)
}

/// Returns the sources of all covers that are one cell, in order, if port tables list the nets, and
/// nothing otherwise.
pub fn listed_singles(
    alloc: Global,
    flat: &Flat,
    sources: &[Option<Src>],
) -> Result<Vec<Src>, MapError>
    ensures { IfOk result (λ found.
        found.items
        ≡ cond flat.now.listed (filter_map (single_source flat.now sources.now) flat.now.nodes) []
        ) }
{
    if !flat.listed {
        return Ok(Vec::new(alloc));
    }
    sources_of_singles(alloc, flat, sources, flat.nodes.as_slice())
}
