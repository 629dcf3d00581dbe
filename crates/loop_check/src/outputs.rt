// The nets that nodes drive.
ghost use Rattle.std.specs.Prelude.{◌≡◌, ◌<◌, ◌^◌, length, map, reverse, IfOk, All};
ghost use Rattle.netlist_meaning.specs.Flat.{IsInRange, IsNetId, node_at};
ghost use Rattle.loop_check.specs.Tables.{AreFirstsFor};

use crate::table::{first_nets, put_firsts};
use lists::List;
use netlist_core::{Flat, NetId};
use std::alloc::{AllocError, Global};

fn output_of(flat: &Flat, n: usize) -> NetId
    requires { n < length flat.now.nodes }
    ensures { result ≡ (node_at flat.now n).out }
{
    flat.nodes.get(n).out
}

fn outputs_of(alloc: Global, flat: &Flat, nodes: &[usize]) -> Result<Vec<NetId>, AllocError>
    requires nodes { All (λ n. n < length flat.now.nodes) nodes.now }
    requires in_range { IsInRange flat.now }
    ensures items { IfOk result (λ nets. nets.items ≡
        map (λ n. (node_at flat.now n).out) nodes.now) }
    ensures nets { IfOk result (λ nets. All (IsNetId flat.now) nets.items) }
{
    nodes.iter().map(|n| output_of(flat, *n)).collect(alloc)
}

/// Returns the first net of the class of each node's output, from the last node to the first.
pub fn outputs_back(alloc: Global, flat: &Flat, nodes: &[usize]) -> Result<List<NetId>, AllocError>
    requires in_range { IsInRange flat.now }
    requires nodes { All (λ n. n < length flat.now.nodes) nodes.now }
    ensures { IfOk result (
        AreFirstsFor flat.now (reverse (map (λ n. (node_at flat.now n).out) nodes.now))
        ) }
{
    let firsts = first_nets(alloc, flat)?;
    let mut nets = outputs_of(alloc, flat, nodes)?;
    nets.reverse();
    put_firsts(flat, &firsts, &mut nets);
    Ok(List::of(nets))
}

/// Converts the numbers of nodes to those of an order.
pub fn as_nodes(alloc: Global, numbers: &[usize]) -> Result<List<u32>, AllocError>
    requires { All (λ n. n < 2 ^ 32) numbers.now }
    ensures { IfOk result (λ nodes. nodes ≡ numbers.now) }
{
    let mut nodes = Vec::with_capacity(alloc, numbers.len())?;
    for n in numbers {
        nodes.push(*n as u32)?;
    }
    Ok(List::of(nodes))
}
