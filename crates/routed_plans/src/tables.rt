// The port table of a routed circuit.
ghost use Rattle.std.specs.Prelude.{◌≡◌, ◌↔◌, ◌<◌, All, IfOk, IsTrue};
ghost use Rattle.netlist_meaning.specs.Flat.{IsInRange, IsNetId, name_of_net, names_of_ports};
ghost use Rattle.pattern_reading.specs.Ports.{names_of};
ghost use Rattle.pattern_reading.specs.Laws.{IsNetInside, IsPortInside};
ghost use Rattle.routed_plans.specs.Tables.{FitsPattern, NamesRouted};

use crate::net_lines::lines_of_nets;
use crate::nets::SeenPort;
use gate_library::{Drawing, DrawnPort, GateLibrary};
use lists::{Bytes, List, OutOfMemory};
use netlist_core::{Flat, FlatPort};
use pattern_reading::{NetLine, PortLine, Ports};
use route_lines::port_cell;
use std::alloc::Global;
use ww_rule::Pattern;

// The cell of a port in a drawing, by its column and its row. A port that is not there is at 0, 0.
fn cell_of(library: &GateLibrary, drawing: &Drawing, ports: &[DrawnPort], i: usize) -> (u32, u32) {
    match ports.get(i) {
        Some(port) => port_cell(library, drawing.gates.as_slice(), *port).unwrap_or((0, 0)),
        None => (0, 0),
    }
}

// The line of a port at this column and this row.
fn port_line(
    alloc: Global,
    flat: &Flat,
    port: FlatPort,
    cell: (u32, u32),
) -> Result<PortLine, OutOfMemory>
    requires { IsNetId flat.now port.net }
    ensures { IfOk result (λ line. line.name ≡ name_of_net flat.now port.net) }
{
    let net = flat.nets.get(port.net.0 as usize);
    let name = Bytes::of(net.name.as_slice().to_vec(alloc)?);
    Ok(PortLine {
        x: u64::from(cell.0),
        y: u64::from(cell.1),
        name,
    })
}

// The lines of ports with the netlist's names, at the cells of the drawing.
fn lines_of(
    alloc: Global,
    library: &GateLibrary,
    flat: &Flat,
    named: &List<FlatPort>,
    drawing: &Drawing,
    ports: &[DrawnPort],
) -> Result<Vec<PortLine>, OutOfMemory>
    requires { All (λ port. IsNetId flat.now port.net) named.now }
    ensures { IfOk result (λ lines. names_of lines.items ≡ names_of_ports flat.now named.now) }
{
    let mut lines = Vec::with_capacity(alloc, named.len())?;
    for i in 0..named.len() {
        let cell = cell_of(library, drawing, ports, i);
        lines.push(port_line(alloc, flat, *named.get(i), cell)?)?;
    }
    Ok(lines)
}

/// Makes the port table of a drawing, with the names of the netlist's inputs and outputs, and of its
/// listed nets whose ports are drawn.
pub fn port_table(
    alloc: Global,
    flat: &Flat,
    drawing: &Drawing,
    ports: &[Option<SeenPort>],
) -> Result<Ports, OutOfMemory>
    requires { IsInRange flat.now }
    ensures { IfOk result (NamesRouted flat.now ports.now) }
{
    let library = GateLibrary::new(alloc)?;
    let ins = lines_of(
        alloc,
        &library,
        flat,
        &flat.ins,
        drawing,
        drawing.ins.as_slice(),
    );
    let outs = lines_of(
        alloc,
        &library,
        flat,
        &flat.outs,
        drawing,
        drawing.outs.as_slice(),
    );
    drop(library);
    let ins = ins?;
    let outs = outs?;
    let nets = lines_of_nets(alloc, flat, ports)?;
    Ok(Ports {
        p: u64::from(drawing.period),
        l: u64::from(drawing.latency),
        c: 1,
        ins: List::of(ins),
        outs: List::of(outs),
        nets: List::of(nets),
    })
}

// Whether the cells of lines lie in a box.
fn are_inside(lines: &[PortLine], width: u64, height: u64) -> bool
    ensures { IsTrue result ↔ All (IsPortInside width height) lines.now }
{
    lines.iter().all(|line| line.x < width && line.y < height)
}

// Whether the cells of nets lie in a box.
fn nets_are_inside(lines: &[NetLine], width: u64, height: u64) -> bool
    ensures { IsTrue result ↔ All (IsNetInside width height) lines.now }
{
    lines.iter().all(|line| line.x < width && line.y < height)
}

// Whether the offsets of nets are numbers of 32 bits.
fn are_early(lines: &[NetLine]) -> bool
    ensures { IsTrue result ↔ All (λ line. line.offset < 4294967296) lines.now }
{
    lines.iter().all(|line| line.offset < 4_294_967_296)
}

/// Returns whether a table can be written beside a pattern and read back: its period is not 0, and
/// its cells lie in the pattern's box.
pub fn fits_pattern(pattern: &Pattern, ports: &Ports) -> bool
    ensures { IsTrue result → FitsPattern pattern.now ports.now }
{
    let _latency = ports.l;
    if ports.p == 0 {
        return false;
    }
    if !are_inside(ports.ins.as_slice(), pattern.width, pattern.height) {
        return false;
    }
    if !are_inside(ports.outs.as_slice(), pattern.width, pattern.height) {
        return false;
    }
    if !nets_are_inside(ports.nets.as_slice(), pattern.width, pattern.height) {
        return false;
    }
    are_early(ports.nets.as_slice())
}
