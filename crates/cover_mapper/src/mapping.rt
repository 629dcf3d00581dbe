// A flat netlist as a list of cells.
ghost use Rattle.std.specs.Prelude.{ℕ, ◌≡◌, ◌≤◌, ◌+◌, ◌*◌, Bool, false, List, [], None, cond, length, map, replicate, IfOk};
ghost use Rattle.std.specs.List.{filter_map};
ghost use Rattle.netlist_core.specs.declared.flat.Net as flat_net;
ghost use Rattle.netlist_meaning.specs.Flat.{class_of, port_classes, IsSound, IsWeighed};
ghost use Rattle.netlist_meaning.specs.FlatOrder.{IsOrder};
ghost use Rattle.netlist_meaning.specs.FlatValuation.{IsFlatValuation};
ghost use Rattle.cell_meaning.specs.Mapped.{HasBits, IsMappedWith};
ghost use Rattle.cover_mapper.specs.Singles.{single_source};
ghost use Rattle.cover_mapper.specs.Sourced.{most_cells_of, sources_at, IsComplete};

use crate::MapError;
use crate::classes::{sources_of_data, sources_of_listed, sources_of_ports};
use crate::nodes::map_nodes;
use crate::singles::listed_singles;
use crate::start::{source_inputs, source_latches, start_list};
use cell_core::{CellList, Src};
use lists::List;
use netlist_core::{Flat, Order};
use std::alloc::Global;

/// The cells of a flat netlist and, if its nets are listed, the sources of those of its covers that
/// are one cell each.
#[derive(Drop)]
pub struct Mapped {
    pub list: CellList,
    pub singles: Vec<Src>,
}

// The sources of the outputs, of the latches' data, of the listed nets, and of those covers that are
// one cell each.
#[derive(Drop)]
struct PortSources {
    outs: Vec<Src>,
    latches: Vec<Src>,
    nets: Vec<Src>,
    singles: Vec<Src>,
}

// The sources that a list names besides its cells.
fn port_sources(
    alloc: Global,
    flat: &Flat,
    sources: &[Option<Src>],
) -> Result<PortSources, MapError>
    ensures outs { IfOk result (λ p.
        p.outs.items ≡ sources_at sources.now (port_classes flat.now flat.now.outs)) }
    ensures latches { IfOk result (λ p.
        p.latches.items
        ≡ sources_at sources.now (map (λ latch. class_of flat.now latch.input) flat.now.latches)) }
    ensures nets { IfOk result (λ p.
        p.nets.items ≡ sources_at sources.now (cond flat.now.listed
        (map (λ (net : flat_net.Net). net.class) flat.now.nets) [])) }
    ensures singles { IfOk result (λ p.
        p.singles.items
        ≡ cond flat.now.listed (filter_map (single_source flat.now sources.now) flat.now.nodes) []) }
{
    let outs = sources_of_ports(alloc, flat, sources, flat.outs.as_slice())?;
    let latches = sources_of_data(alloc, flat, sources, flat.latches.as_slice())?;
    let nets = sources_of_listed(alloc, flat, sources)?;
    let singles = listed_singles(alloc, flat, sources)?;
    Ok(PortSources {
        outs,
        latches,
        nets,
        singles,
    })
}

// The list with its ports and listed nets.
fn with_ports(
    alloc: Global,
    flat: &Flat,
    list: CellList,
    sources: &[Option<Src>],
) -> Result<Mapped, MapError>
    requires sound { IsSound flat.now }
    requires complete { IsComplete flat.now list sources.now }
    ensures mapped { IfOk result (λ m. IsMappedWith flat.now m.list m.singles.items) }
    ensures bits { IfOk result (λ m. (inputs state : List Bool) (bits : ℕ → Bool)
        → IsFlatValuation flat.now inputs state bits → HasBits flat.now m.list inputs state bits) }
    ensures cells { IfOk result (λ m. length m.list.cells ≤ most_cells_of flat.now) }
    ensures unlisted { IfOk result (λ m. flat.now.listed ≡ false → m.singles.items ≡ []) }
{
    let Ok(
        PortSources {
            outs,
            latches,
            nets,
            singles,
        },
    ) = port_sources(alloc, flat, sources)
    else {
        drop(list);
        return Err(MapError::NoMemory);
    };
    let list = CellList {
        inputs: list.inputs,
        cells: list.cells,
        outs: List::of(outs),
        latches: List::of(latches),
        starts: list.starts,
        nets: List::of(nets),
    };
    Ok(Mapped { list, singles })
}

// The cells, from sources among which no class has one yet.
fn map_from(
    alloc: Global,
    flat: &Flat,
    order: &Order,
    sources: &mut [Option<Src>],
) -> Result<Mapped, MapError>
    requires sound { IsSound flat.now }
    requires weighed { IsWeighed flat.now }
    requires ordered { IsOrder flat.now order.now.nodes }
    requires none { sources.old ≡ replicate (length flat.now.nets) None }
    ensures mapped { IfOk result (λ m. IsMappedWith flat.now m.list m.singles.items) }
    ensures bits { IfOk result (λ m. (inputs state : List Bool) (bits : ℕ → Bool)
        → IsFlatValuation flat.now inputs state bits → HasBits flat.now m.list inputs state bits) }
    ensures cells { IfOk result (λ m. length m.list.cells ≤ most_cells_of flat.now) }
    ensures unlisted { IfOk result (λ m. flat.now.listed ≡ false → m.singles.items ≡ []) }
{
    let mut list = start_list(alloc, flat)?;
    source_inputs(flat, &list, sources);
    source_latches(flat, &list, sources);
    match map_nodes(&mut list, alloc, flat, order.nodes.as_slice(), sources) {
        Ok(()) => with_ports(alloc, flat, list, sources),
        Err(error) => {
            drop(list);
            Err(error)
        }
    }
}

/// Maps a sound flat netlist to cells, along an order of its covers in which each comes after those
/// that it reads.
///
/// A cover without rows, or of no nets, is a constant. A cover of two nets that is an OR, an XOR or
/// an AND-NOT is one cell, which other covers may share; if port tables list the nets, its source
/// is among the singles. How the products of other covers are formed is free. If port tables list
/// no nets, the list of cells has none either, and there are no singles.
pub fn map(alloc: Global, flat: &Flat, order: &Order) -> Result<Mapped, MapError>
    requires sound { IsSound flat.now }
    requires weighed { IsWeighed flat.now }
    requires ordered { IsOrder flat.now order.now.nodes }
    ensures mapped { IfOk result (λ m. IsMappedWith flat.now m.list m.singles.items) }
    ensures few { IfOk result (λ m. length m.list.cells ≤ 2 * flat.now.weight) }
    ensures ports { IfOk result (λ m.
        m.list.inputs + length m.list.outs + 2 * length m.list.starts ≤ flat.now.weight
        ) }
    ensures bits { IfOk result (λ m. (inputs state : List Bool) (bits : ℕ → Bool)
        → IsFlatValuation flat.now inputs state bits → HasBits flat.now m.list inputs state bits) }
    ensures cells { IfOk result (λ m. length m.list.cells ≤ most_cells_of flat.now) }
    ensures unlisted { IfOk result (λ m. flat.now.listed ≡ false → m.singles.items ≡ []) }
{
    let mut sources = vec![in alloc; None; flat.nets.len()]?;
    map_from(alloc, flat, order, &mut sources)
}
