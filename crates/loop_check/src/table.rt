// The node that drives each class.
ghost use Rattle.std.specs.Prelude.{IfOk, All, length, ◌<◌};
ghost use Rattle.lists.specs.Items.{number_at};
ghost use Rattle.netlist_meaning.specs.Flat.{IsInRange, IsNetId, in_classes};
ghost use Rattle.loop_check.specs.Tables.{IsTable, IsDriverBefore, AreFirsts, IsFirstFor, AreFirstsFor};

use netlist_core::{Flat, NetId};
use netlist_meaning::class_of;
use std::alloc::{AllocError, Global};

/// Makes the table of the node that drives each class.
pub fn drivers(alloc: Global, flat: &Flat) -> Result<Vec<Option<usize>>, AllocError>
    requires { IsInRange flat.now }
    ensures { IfOk result (λ table. IsTable flat.now table.items) }
{
    let mut table = vec![in alloc; None; flat.nets.len()]?;
    for (n, node) in flat.nodes.as_slice().iter().enumerate() {
        let class = class_of(flat, node.out);
        table[class] = Some(n);
    }
    Ok(table)
}

/// Returns the node that drives the k-th input of node n, if one does.
pub fn driver_at(flat: &Flat, table: &[Option<usize>], n: usize, k: usize) -> Option<usize>
    requires sound { IsInRange flat.now }
    requires table { IsTable flat.now table.now }
    requires node { n < length flat.now.nodes }
    requires input { k < length (in_classes flat.now n) }
    ensures { IsDriverBefore flat.now (length flat.now.nodes)
        (number_at (in_classes flat.now n) k) result }
{
    let net = *flat.nodes.get(n).ins.get(k);
    table[class_of(flat, net)]
}

/// Returns the first net of each class.
pub fn first_nets(alloc: Global, flat: &Flat) -> Result<Vec<Option<usize>>, AllocError>
    requires { IsInRange flat.now }
    ensures { IfOk result (λ firsts. AreFirsts flat.now firsts.items) }
{
    let mut firsts = vec![in alloc; None; flat.nets.len()]?;
    for (n, net) in flat.nets.as_slice().iter().enumerate() {
        let class = net.class as usize;
        if let None = firsts[class] {
            firsts[class] = Some(n);
        }
    }
    Ok(firsts)
}

/// Returns the first net of the class of a net.
pub fn first_for(flat: &Flat, firsts: &[Option<usize>], net: NetId) -> NetId
    requires in_range { IsInRange flat.now }
    requires firsts { AreFirsts flat.now firsts.now }
    requires net { IsNetId flat.now net }
    ensures { IsFirstFor flat.now net result }
{
    match firsts[class_of(flat, net)] {
        Some(first) => NetId(first as u32),
        None => net,
    }
}

/// Replaces each net by the first net of its class.
pub fn put_firsts(flat: &Flat, firsts: &[Option<usize>], nets: &mut [NetId])
    requires in_range { IsInRange flat.now }
    requires firsts { AreFirsts flat.now firsts.now }
    requires nets { All (IsNetId flat.now) nets.old }
    ensures { AreFirstsFor flat.now nets.old nets.new }
{
    for k in 0..nets.len() {
        nets[k] = first_for(flat, firsts, nets[k]);
    }
}
