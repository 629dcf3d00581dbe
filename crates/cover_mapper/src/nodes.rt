// Covers in an order.
ghost use Rattle.std.specs.Prelude.{[], length, OnOk};
ghost use Rattle.netlist_meaning.specs.Flat.{IsSound};
ghost use Rattle.netlist_meaning.specs.FlatOrder.{IsOrder};
ghost use Rattle.cover_mapper.specs.Sourced.{AreMapped, AreSourced, IsAmongFirst};

use crate::MapError;
use crate::classes::sources_of_nets;
use cell_core::{CellList, Src};
use cell_sharing::Places;
use cover_cells::map_cover;
use netlist_core::Flat;
use netlist_meaning::class_of;
use std::alloc::Global;

/// Adds the cells of all covers along the order, and gives the classes of their outputs sources.
pub fn map_nodes(
    list: &mut CellList,
    alloc: Global,
    flat: &Flat,
    order: &[u32],
    sources: &mut [Option<Src>],
) -> Result<(), MapError>
    requires sound { IsSound flat.now }
    requires ordered { IsOrder flat.now order.now }
    requires ports { AreSourced
        flat.now (IsAmongFirst (length flat.now.ins) (length flat.now.latches) []) list.old
        sources.old }
    ensures { OnOk result (AreMapped flat.now list.old list.new sources.new order.now) }
{
    let mut places = Places::new(alloc);
    for n in order {
        let node = flat.nodes.get(*n as usize);
        let ins = sources_of_nets(alloc, flat, sources, node.ins.as_slice())?;
        let source = map_cover(
            list,
            &mut places,
            alloc,
            &ins,
            node.rows.as_slice(),
            node.on,
        )?;
        sources[class_of(flat, node.out)] = Some(source);
    }
    Ok(())
}
