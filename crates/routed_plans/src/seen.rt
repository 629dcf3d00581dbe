// The ports at which the nets of a list are seen in its drawing.

use crate::nets::SeenPort;
use cell_core::{CellList, Src};
use gate_library::{Drawing, DrawnPort, GatePort};
use list_matching::{stand_in, stand_ins};
use lists::{List, OutOfMemory};
use route_filling::tables_of;
use route_tables::{BOX_LIMIT, Tables};
use std::alloc::Global;
use std::collections::BTreeMap;
use strand_drawings::Drawn;

/// A drawing of a list of cells, and a port for each net of the list, or none for a net that is drawn
/// nowhere.
#[derive(Drop)]
pub struct SeenDrawing {
    pub drawn: Drawn,
    pub ports: Vec<Option<SeenPort>>,
}

// The tables of a drawing, and what stands for the cells and the latches of its list.
#[derive(Clone, Copy)]
struct Reading<'a> {
    tables: &'a Tables,
    cells: &'a [Src],
    latches: &'a [Src],
}

// Notes that a port has the bits of a source, if no port is known for it that is lit as early.
fn note(
    ports: &mut BTreeMap<Src, SeenPort>,
    source: Src,
    port: SeenPort,
) -> Result<(), OutOfMemory> {
    let is_known = match ports.get(&source) {
        Some(known) => known.first <= port.first,
        None => false,
    };
    if !is_known {
        ports.insert(source, port)?;
    }
    Ok(())
}

fn note_port(
    ports: &mut BTreeMap<Src, SeenPort>,
    reading: Reading,
    port: DrawnPort,
) -> Result<(), OutOfMemory> {
    let Some(cell) = reading.tables.port(port) else {
        return Ok(());
    };
    let source = stand_in(reading.cells, reading.latches, reading.tables.source(port));
    note(
        ports,
        source,
        SeenPort {
            port,
            x: cell.x,
            y: cell.y,
            first: cell.generation,
        },
    )
}

fn note_inputs(
    ports: &mut BTreeMap<Src, SeenPort>,
    reading: Reading,
    gate: u32,
    count: u32,
) -> Result<(), OutOfMemory> {
    for i in 0..count {
        let port = GatePort::In(i);
        note_port(ports, reading, DrawnPort { gate, port })?;
    }
    Ok(())
}

fn note_outputs(
    ports: &mut BTreeMap<Src, SeenPort>,
    reading: Reading,
    gate: u32,
    count: u32,
) -> Result<(), OutOfMemory> {
    for o in 0..count {
        let port = GatePort::Out(o);
        note_port(ports, reading, DrawnPort { gate, port })?;
    }
    Ok(())
}

fn small(number: usize) -> u32 {
    u32::try_from(number).unwrap_or(u32::MAX)
}

// Of each source the port that is lit first.
fn first_ports(alloc: Global, reading: Reading) -> Result<BTreeMap<Src, SeenPort>, OutOfMemory> {
    let mut ports = BTreeMap::new(alloc);
    for (k, gate) in reading.tables.gates.as_slice().iter().enumerate() {
        let (ins, outs) = (small(gate.ins.len()), small(gate.outs.len()));
        note_inputs(&mut ports, reading, small(k), ins)?;
        note_outputs(&mut ports, reading, small(k), outs)?;
    }
    Ok(ports)
}

// The ports of nets with these sources.
fn ports_of(
    alloc: Global,
    known: &BTreeMap<Src, SeenPort>,
    nets: &[Src],
) -> Result<Vec<Option<SeenPort>>, OutOfMemory> {
    let mut ports = Vec::with_capacity(alloc, nets.len())?;
    for source in nets {
        ports.push(known.get(source).copied())?;
    }
    Ok(ports)
}

// The tables of a drawing, if they can be filled.
fn filled(alloc: Global, drawing: &Drawing) -> Result<Option<Tables>, OutOfMemory> {
    let cells = u64::from(drawing.width).saturating_mul(u64::from(drawing.height));
    if cells > BOX_LIMIT {
        return Ok(None);
    }
    match tables_of(alloc, drawing, drawing.width, cells as usize)? {
        Ok(tables) => Ok(Some(tables)),
        Err(_) => Ok(None),
    }
}

// The ports of a list's nets in the tables of its drawing.
fn ports_in(
    alloc: Global,
    list: &CellList,
    latches: &[Src],
    tables: &Tables,
) -> Result<Vec<Option<SeenPort>>, OutOfMemory> {
    let found = tables.list.cells.as_slice();
    let cells = stand_ins(alloc, found, list.cells.as_slice(), latches)?;
    let reading = Reading {
        tables,
        cells: &cells,
        latches,
    };
    let known = first_ports(alloc, reading)?;
    ports_of(alloc, &known, list.nets.as_slice())
}

// The ports of a list's nets in its drawing.
fn net_ports(
    alloc: Global,
    list: &CellList,
    drawn: &Drawn,
) -> Result<Vec<Option<SeenPort>>, OutOfMemory> {
    match filled(alloc, &drawn.drawing)? {
        Some(tables) => {
            let ports = ports_in(alloc, list, drawn.latches.as_slice(), &tables);
            drop(tables);
            ports
        }
        None => Ok(Vec::new(alloc)),
    }
}

fn drawn_ports(
    alloc: Global,
    ports: &[Option<SeenPort>],
) -> Result<List<Option<DrawnPort>>, OutOfMemory> {
    let mut drawn = Vec::with_capacity(alloc, ports.len())?;
    for port in ports {
        match port {
            Some(seen) => drawn.push(Some(seen.port))?,
            None => drawn.push(None)?,
        }
    }
    Ok(List::of(drawn))
}

// Finds the ports of a list's nets in its drawing, and notes them there.
fn see_nets(
    alloc: Global,
    list: &CellList,
    drawn: &mut Drawn,
) -> Result<Vec<Option<SeenPort>>, OutOfMemory> {
    let ports = net_ports(alloc, list, drawn)?;
    drawn.drawing.nets = drawn_ports(alloc, &ports)?;
    Ok(ports)
}

/// Finds the ports of a list's nets in its drawing.
pub fn with_net_ports(
    alloc: Global,
    list: &CellList,
    mut drawn: Drawn,
) -> Result<SeenDrawing, OutOfMemory> {
    match see_nets(alloc, list, &mut drawn) {
        Ok(ports) => Ok(SeenDrawing { drawn, ports }),
        Err(error) => {
            drop(drawn);
            Err(error)
        }
    }
}
