// Classes of nets, and their sources.
ghost use Rattle.std.specs.Prelude.{◌≡◌, ◌++◌, [], cond, map, get_or, None, IfOk, OnOk};
ghost use Rattle.std.specs.Option.{option_to_list};
ghost use Rattle.netlist_core.specs.declared.flat.Net as flat_net;
ghost use Rattle.netlist_meaning.specs.Flat.{class_of, port_classes};
ghost use Rattle.cover_mapper.specs.Sourced.{sources_at};

use crate::MapError;
use cell_core::Src;
use netlist_core::{Flat, FlatLatch, FlatPort, Net, NetId};
use netlist_meaning::class_of;
use std::alloc::Global;

/// Returns the source of a class, if it has one.
pub fn source_of(sources: &[Option<Src>], class: usize) -> Option<Src>
    ensures { result ≡ get_or sources.now class None }
{
    match sources.get(class) {
        None => None,
        Some(source) => *source,
    }
}

// Adds the source of a class, if it has one.
fn push_source(found: &mut Vec<Src>, sources: &[Option<Src>], class: usize) -> Result<(), MapError>
    ensures { OnOk result (
        found.new.items ≡ found.old.items ++ option_to_list (get_or sources.now class None)
        ) }
{
    if let Some(source) = source_of(sources, class) {
        found.push(source)?;
    }
    Ok(())
}

/// Returns the sources of nets, in order; a net whose class has none is left out.
pub fn sources_of_nets(
    alloc: Global,
    flat: &Flat,
    sources: &[Option<Src>],
    ids: &[NetId],
) -> Result<Vec<Src>, MapError>
    ensures { IfOk result (λ found.
        found.items ≡ sources_at sources.now (map (class_of flat.now) ids.now)
        ) }
{
    let mut found = Vec::with_capacity(alloc, ids.len())?;
    for id in ids {
        push_source(&mut found, sources, class_of(flat, *id))?;
    }
    Ok(found)
}

/// Returns the sources of ports, in order; a port whose class has none is left out.
pub fn sources_of_ports(
    alloc: Global,
    flat: &Flat,
    sources: &[Option<Src>],
    ports: &[FlatPort],
) -> Result<Vec<Src>, MapError>
    ensures { IfOk result (λ found.
        found.items ≡ sources_at sources.now (port_classes flat.now ports.now)
        ) }
{
    let mut found = Vec::with_capacity(alloc, ports.len())?;
    for port in ports {
        push_source(&mut found, sources, class_of(flat, port.net))?;
    }
    Ok(found)
}

/// Returns the sources of what latches read, in order; a latch whose data's class has none is left
/// out.
pub fn sources_of_data(
    alloc: Global,
    flat: &Flat,
    sources: &[Option<Src>],
    latches: &[FlatLatch],
) -> Result<Vec<Src>, MapError>
    ensures { IfOk result (λ found.
        found.items
        ≡ sources_at sources.now (map (λ latch. class_of flat.now latch.input) latches.now)
        ) }
{
    let mut found = Vec::with_capacity(alloc, latches.len())?;
    for latch in latches {
        push_source(&mut found, sources, class_of(flat, latch.input))?;
    }
    Ok(found)
}

// The sources of all nets that have one.
fn sources_of_all(
    alloc: Global,
    sources: &[Option<Src>],
    nets: &[Net],
) -> Result<Vec<Src>, MapError>
    ensures { IfOk result (λ found.
        found.items ≡ sources_at sources.now (map (λ (net : flat_net.Net). net.class) nets.now)
        ) }
{
    let mut found = Vec::with_capacity(alloc, nets.len())?;
    for net in nets {
        push_source(&mut found, sources, net.class as usize)?;
    }
    Ok(found)
}

/// Returns the sources of the nets that port tables list, in order, or nothing if they list none.
pub fn sources_of_listed(
    alloc: Global,
    flat: &Flat,
    sources: &[Option<Src>],
) -> Result<Vec<Src>, MapError>
    ensures { IfOk result (λ found.
        found.items
        ≡ sources_at sources.now (cond flat.now.listed
        (map (λ (net : flat_net.Net). net.class) flat.now.nets) [])
        ) }
{
    if !flat.listed {
        return Ok(Vec::new(alloc));
    }
    sources_of_all(alloc, sources, flat.nets.as_slice())
}
