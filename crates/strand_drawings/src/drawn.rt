// Drawings of circuits of strands.

use crate::gates::{Corner, Gates, Ports, set_source};
use crate::loops::Loops;
use crate::periods::{accepted_period, accepts, least_period, round_period};
use crate::rings::{Ring, ring_of};
use crate::wires::{Scene, Wires};
use cell_core::Src;
use gate_library::{Drawing, DrawnPort};
use lists::{List, OutOfMemory};
use register_ways::{Circuit, Loop, Ways, ways_around};
use std::alloc::Global;
use strand_core::{East, Layout, StrandCircuit, West, add};

// How often other ways are looked for until all crossings accept their period.
const ROUNDS: u32 = 8;

/// The drawing of a circuit, and for each latch of the list of cells that it computes which latch of the circuit it is: one
/// for each period of each wire, in the order of the wires. A register that is always 1 is constant 1, and so are the
/// latches of a ring.
#[derive(Drop)]
pub struct Drawn {
    pub drawing: Drawing,
    pub latches: Vec<Src>,
}

// Ways of all registers, at the least period that is found at which all crossings accept it.
fn accepted_ways(
    alloc: Global,
    circuit: &StrandCircuit,
    loops: &[Loop],
    size: Circuit,
    least: u32,
) -> Result<Option<Ways>, OutOfMemory> {
    let mut least = least;
    for _ in 0..ROUNDS {
        let Some(period) = accepted_period(circuit, least) else {
            return Ok(None);
        };
        let Some(ways) = ways_around(alloc, loops, size, period)? else {
            return Ok(None);
        };
        if accepts(circuit, ways.period) {
            return Ok(Some(ways));
        }
        least = ways.period.saturating_add(1);
    }
    Ok(None)
}

// Puts ways at a multiple of 32 in place of these, if that costs at most a twentieth of the period.
fn round_ways(
    alloc: Global,
    circuit: &StrandCircuit,
    loops: &[Loop],
    size: Circuit,
    ways: &mut Ways,
) -> Result<(), OutOfMemory> {
    let Some(period) = round_period(circuit, ways.period) else {
        return Ok(());
    };
    if let Some(round) = ways_around(alloc, loops, size, period)? {
        if round.period == period {
            *ways = round;
        }
    }
    Ok(())
}

fn has_inputs(circuit: &StrandCircuit) -> bool {
    for end in &circuit.west {
        if let (Some(_), West::Input(_)) = (end.strand, end.is) {
            return true;
        }
    }
    false
}

// How many registers stand north of the outputs at the east, if the outputs stand together and there are no inputs.
fn gap_of(circuit: &StrandCircuit) -> Option<usize> {
    if has_inputs(circuit) {
        return None;
    }
    let (mut registers, mut gap) = (0usize, None);
    for end in &circuit.east {
        match (end.strand, end.is, gap) {
            (None, _, _) => {}
            (_, East::Register(_), _) => registers = registers.saturating_add(1),
            (_, East::Output(_), None) => gap = Some(registers),
            (_, East::Output(_), Some(before)) if before == registers => {}
            (_, East::Output(_), Some(_)) => return None,
        }
    }
    gap
}

// Ways of all registers. Without registers the period is the least one, else a multiple of 32 if that costs little.
fn ways_of(
    alloc: Global,
    circuit: &StrandCircuit,
    layout: &Layout,
    loops: &Loops,
) -> Result<Option<Ways>, OutOfMemory> {
    let size = Circuit {
        width: layout.width,
        height: layout.height,
        gap: gap_of(circuit),
    };
    let least = least_period(circuit, layout, loops);
    let loops = loops.loops.as_slice();
    let Some(mut ways) = accepted_ways(alloc, circuit, loops, size, least)? else {
        return Ok(None);
    };
    if !loops.is_empty() {
        round_ways(alloc, circuit, loops, size, &mut ways)?;
    }
    Ok(Some(ways))
}

// A box of this size, and the ports of all inputs and outputs.
#[derive(Drop)]
struct Frame {
    size: (u32, u32),
    ins: Vec<DrawnPort>,
    outs: Vec<DrawnPort>,
}

// Adds ports. One that is none yet becomes a lone cell that is lit at a generation first, if it is ever: in every other
// column of a row, from a cell on. Returns the next cell.
fn add_ports(
    all: &mut Vec<DrawnPort>,
    gates: &mut Gates,
    ports: &[Option<DrawnPort>],
    first: u32,
    from: (u32, u32),
) -> (u32, u32) {
    let (mut x, y) = from;
    for port in ports {
        let mut own = *port;
        if own.is_none() {
            own = Some(gates.add_lone((x, y), first));
            x = x.saturating_add(2);
        }
        if let Some(port) = own {
            add(all, port, &mut gates.is_refused);
        }
    }
    (x, y)
}

// The size of the box of a circuit with its ways, and with a row of lone cells below them that ends before a column.
fn size_of(ways: &Ways, end: u32) -> (u32, u32) {
    if end == 0 {
        (ways.width, ways.height)
    } else {
        (
            ways.width.max(end.saturating_sub(1)),
            ways.height.saturating_add(2),
        )
    }
}

// The drawing in a frame, of these gates and wires.
fn assembled(
    alloc: Global,
    scene: Scene,
    latency: u32,
    frame: Frame,
    gates: Gates,
    wires: Wires,
) -> Drawn {
    let Frame { size, ins, outs } = frame;
    let Gates { gates, .. } = gates;
    let Wires {
        wires,
        path,
        starts,
        latches,
        ..
    } = wires;
    Drawn {
        drawing: Drawing {
            width: size.0,
            height: size.1,
            period: scene.ways.period,
            latency,
            gates: List::of(gates),
            wires: List::of(wires),
            path: List::of(path),
            starts: List::of(starts),
            ins: List::of(ins),
            outs: List::of(outs),
            nets: List::of(Vec::new(alloc)),
        },
        latches,
    }
}

// The corner of the circuit, after room is made for a ring at the west.
fn corner_of(ways: &mut Ways, ring: Option<Ring>) -> Corner {
    let north = ways.north;
    if let Some(ring) = ring {
        ways.west = ways.west.saturating_add(ring.columns());
        ways.width = ways.width.saturating_add(ring.columns());
        ways.height = ways.height.max(ring.rows(north));
    }
    Corner {
        west: ways.west,
        north,
    }
}

// Adds the gates of a scene, and the lone cells of its ports. Returns the output at which its ring begins.
fn add_gates(gates: &mut Gates, ports: &mut Ports, scene: Scene) -> Option<DrawnPort> {
    let (circuit, layout, corner) = (scene.circuit, scene.layout, scene.corner);
    gates.add_tiles(circuit, layout, corner);
    let mut begin = None;
    if let Some(ring) = scene.ring {
        let (upper, lower) = ring.add_fork(gates, corner.north);
        set_source(&mut gates.sources, Some(ring.strand), upper);
        begin = Some(lower);
    }
    ports.find(gates, circuit, layout, corner);
    begin
}

// Adds the gates and wires of a scene. Returns whether all wires lead to inputs.
fn draw(gates: &mut Gates, ports: &mut Ports, wires: &mut Wires, scene: Scene) -> bool {
    let begin = add_gates(gates, ports, scene);
    if let (Some(ring), Some(from)) = (scene.ring, begin) {
        wires.add_ring(ring, from, scene.corner.north);
    }
    wires.add_all(scene, gates)
}

// Draws a scene with so many inputs and outputs, if all wires lead to inputs. Below all others stand lone cells for the
// inputs that nothing reads, and for the outputs that are always 0.
fn drawn_scene(
    alloc: Global,
    scene: Scene,
    inputs: u32,
    outputs: u32,
) -> Result<Option<Drawn>, OutOfMemory> {
    let mut ports = Ports::of(alloc, inputs, outputs)?;
    let mut gates = Gates::new(alloc);
    let mut wires = Wires::new(alloc);
    let is_whole = draw(&mut gates, &mut ports, &mut wires, scene);
    let mut ins = Vec::new(alloc);
    let mut outs = Vec::new(alloc);
    let row = scene.ways.height.saturating_add(1);
    let next = add_ports(&mut ins, &mut gates, &ports.ins, 0, (0, row));
    let (end, _) = add_ports(&mut outs, &mut gates, &ports.outs, ports.latency, next);
    let size = size_of(scene.ways, end);
    let frame = Frame { size, ins, outs };
    let is_refused = gates.is_refused || wires.is_refused;
    let drawn = assembled(alloc, scene, ports.latency, frame, gates, wires);
    if is_refused {
        Err(OutOfMemory::NoMemory)
    } else if is_whole {
        Ok(Some(drawn))
    } else {
        Ok(None)
    }
}

// Draws a circuit with its registers as these loops, if there is room for them and all wires lead to inputs.
fn drawn_around(
    alloc: Global,
    circuit: &StrandCircuit,
    layout: &Layout,
    loops: &Loops,
    inputs: u32,
    outputs: u32,
) -> Result<Option<Drawn>, OutOfMemory> {
    let Some(mut ways) = ways_of(alloc, circuit, layout, loops)? else {
        return Ok(None);
    };
    let ring = ring_of(circuit, layout, ways.period);
    let scene = Scene {
        circuit,
        layout,
        loops,
        corner: corner_of(&mut ways, ring),
        ways: &ways,
        ring,
    };
    drawn_scene(alloc, scene, inputs, outputs)
}

/// Draws a circuit of strands: gates and wires, with the registers led around the north and the south. Without registers
/// constant 1 comes from a ring. Inputs that nothing reads, and outputs that are constant 0, are lone cells that stand
/// apart. Nothing if the registers are in another order at the west than at the east, there is no room for them, or a
/// strand leads nowhere.
pub fn drawn_circuit(
    alloc: Global,
    circuit: &StrandCircuit,
    layout: &Layout,
    inputs: u32,
    outputs: u32,
) -> Result<Option<Drawn>, OutOfMemory> {
    let mut loops = Loops::new(alloc);
    let is_found = loops.find(circuit, layout);
    if loops.is_refused {
        Err(OutOfMemory::NoMemory)
    } else if is_found {
        drawn_around(alloc, circuit, layout, &loops, inputs, outputs)
    } else {
        Ok(None)
    }
}
