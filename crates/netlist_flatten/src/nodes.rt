// The covers, place by place.
ghost use Rattle.std.specs.Prelude.{◌≡◌, ◌<◌, ◌++◌, List, All, length, map, IfOk, OnOk};
ghost use Rattle.netlist_core.specs.declared.model.Cover as models;
ghost use Rattle.netlist_meaning.specs.Places.{model_at};
ghost use Rattle.netlist_meaning.specs.Nets.{net_at, IsNet};
ghost use Rattle.netlist_meaning.specs.InOrder.{places_in_order, of_some};
ghost use Rattle.netlist_meaning.specs.FlatOf.{id_of, flat_node, at_places};
ghost use Rattle.netlist_flatten.specs.Numbered.{place_at};
ghost use Rattle.netlist_flatten.specs.Listed.{cover_names};

use crate::copies::copied_rows;
use crate::numbers::Numbers;
use lists::List;
use netlist_core::{Cover, Name, NetId, Node};
use std::alloc::{AllocError, Global};

// The numbers of the nets of some names at a place.
fn ids_of(
    alloc: Global,
    numbers: &Numbers<'_>,
    at: usize,
    names: &[Name],
) -> Result<Vec<NetId>, AllocError>
    requires place { at < length (places_in_order numbers.now) }
    requires nets { All (λ name. IsNet numbers.now (net_at
        (place_at numbers.now at) name)) names.now }
    ensures { IfOk result (λ ids. ids.items ≡
        map (id_of numbers.now (place_at numbers.now at)) names.now) }
{
    let mut ids = Vec::with_capacity(alloc, names.len())?;
    for name in names {
        ids.push(numbers.id(at, name.as_slice()))?;
    }
    Ok(ids)
}

// A cover at a place.
fn node_of(
    alloc: Global,
    numbers: &Numbers<'_>,
    at: usize,
    cover: &Cover,
) -> Result<Node, AllocError>
    requires place { at < length (places_in_order numbers.now) }
    requires nets { All (λ name.
        IsNet numbers.now (net_at (place_at numbers.now at) name)
        ) (cover_names cover.now) }
    ensures { IfOk result (λ node. node ≡
        flat_node numbers.now (place_at numbers.now at) cover.now) }
{
    Ok(Node {
        line: cover.line,
        ins: List::of(ids_of(alloc, numbers, at, cover.ins.as_slice())?),
        out: numbers.id(at, cover.out.as_slice()),
        rows: copied_rows(alloc, cover.rows.as_slice())?,
        on: cover.on,
    })
}

// Adds the covers of a place.
fn push_nodes(
    nodes: &mut Vec<Node>,
    alloc: Global,
    numbers: &Numbers<'_>,
    at: usize,
) -> Result<(), AllocError>
    requires { at < length (places_in_order numbers.now) }
    ensures { OnOk result (
        nodes.new.items
        ≡ nodes.old.items
        ++ map (flat_node numbers.now (place_at numbers.now at)) (
        of_some (λ model. model.covers) (
        model_at numbers.now (place_at numbers.now at)
        )
        )
        ) }
{
    for cover in numbers.model(at).covers.as_slice() {
        nodes.push(node_of(alloc, numbers, at, cover)?)?;
    }
    Ok(())
}

/// Makes the nodes: the covers of all places, in order.
pub fn nodes_of(alloc: Global, numbers: &Numbers<'_>) -> Result<Vec<Node>, AllocError>
    ensures { IfOk result (λ nodes.
        nodes.items ≡ at_places numbers.now (λ model. model.covers) (flat_node numbers.now)
        ) }
{
    let mut nodes = Vec::new(alloc);
    for at in 0..numbers.len() {
        push_nodes(&mut nodes, alloc, numbers, at)?;
    }
    Ok(nodes)
}
