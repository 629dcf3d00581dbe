// The drivers of what each node reads.
ghost use Rattle.std.specs.Prelude.{◌<◌, length, IfOk};
ghost use Rattle.netlist_meaning.specs.Flat.{IsSound};
ghost use Rattle.loop_check.specs.Links.{AreDriversOf, AreDriverLinks};
ghost use Rattle.loop_check.specs.Tables.{IsTable};

use crate::table::driver_at;
use lists::List;
use netlist_core::Flat;
use std::alloc::{AllocError, Global};

// The nodes that drive the inputs of a node, in order.
fn drivers_of(
    alloc: Global,
    flat: &Flat,
    table: &[Option<usize>],
    n: usize,
) -> Result<List<Option<usize>>, AllocError>
    requires sound { IsSound flat.now }
    requires table { IsTable flat.now table.now }
    requires node { n < length flat.now.nodes }
    ensures { IfOk result (AreDriversOf flat.now n) }
{
    let count = flat.nodes.get(n).ins.len();
    let mut drivers = Vec::with_capacity(alloc, count)?;
    for input in 0..count {
        drivers.push(driver_at(flat, table, n, input))?;
    }
    Ok(List::of(drivers))
}

/// Returns for each node the nodes that drive its inputs, in order.
pub fn links_of(
    alloc: Global,
    flat: &Flat,
    table: &[Option<usize>],
) -> Result<Vec<List<Option<usize>>>, AllocError>
    requires sound { IsSound flat.now }
    requires table { IsTable flat.now table.now }
    ensures { IfOk result (λ links. AreDriverLinks flat.now links.items) }
{
    let mut links = Vec::with_capacity(alloc, flat.nodes.len())?;
    for n in 0..flat.nodes.len() {
        links.push(drivers_of(alloc, flat, table, n)?)?;
    }
    Ok(links)
}
