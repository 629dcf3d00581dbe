// The circuit of a list of cells.

use crate::graph::{Graph, Node, NodeKind};
use crate::parts::parts_of;
use crate::readers::Readers;
use crate::registers::Registers;
use crate::values::Values;
use crate::weaving::{Running, Weaver};
use cell_core::{CellList, Src};
use lists::OutOfMemory;
use std::alloc::Global;
use strand_core::{East, Effort, End, StrandCircuit, West, add};
use strand_orders::{Layered, Ordered, few_crossings};

// How often the forks' trees are made anew, for the layers in which their readers then stand.
const ROUNDS: usize = 4;

// A circuit is given up if its strands pass so many layers together, or cross so often.
const MOST_NODES: u64 = 3_000_000;

const MOST_CROSSINGS: u64 = 1_000_000;

// Adds the inputs that nothing reads.
fn add_unread(west: &mut Vec<End<West>>, values: &Values, is_refused: &mut bool) {
    for input in 0..values.inputs {
        if values.reads_of(input) == 0 {
            let is = West::Input(input);
            add(west, End { strand: None, is }, is_refused);
        }
    }
}

// Adds the outputs that are constant 0.
fn add_dark_outs(east: &mut Vec<End<East>>, values: &Values, outs: &[Src], is_refused: &mut bool) {
    let mut number = 0u32;
    for src in outs {
        if values.number(*src).is_none() {
            let is = East::Output(number);
            add(east, End { strand: None, is }, is_refused);
        }
        number = number.saturating_add(1);
    }
}

// Makes a graph that of a list, with forks as late as may be.
fn grow(
    graph: &mut Graph,
    list: &CellList,
    values: &Values,
    registers: &Registers,
    readers: &mut Readers,
) -> Result<(), OutOfMemory> {
    for _ in 0..ROUNDS {
        graph.grow(list, values, registers, readers);
    }
    if graph.is_refused {
        Err(OutOfMemory::NoMemory)
    } else {
        Ok(())
    }
}

// Makes a graph and the registers of a circuit those of a list.
fn fill_graph(
    alloc: Global,
    graph: &mut Graph,
    circuit: &mut StrandCircuit,
    list: &CellList,
    values: &Values,
) -> Result<(), OutOfMemory> {
    let registers = Registers::of(alloc, list, values)?;
    let mut readers = Readers::of(alloc, list, values, &registers)?;
    grow(graph, list, values, &registers, &mut readers)?;
    circuit.registers = registers.registers;
    Ok(())
}

// The layers of a graph in an order with few crossings, if it is not too large.
fn ordered(
    alloc: Global,
    nodes: &[Node],
    registers: usize,
    seed: u64,
    effort: Effort,
) -> Result<Option<Ordered>, OutOfMemory> {
    let parts = parts_of(alloc, nodes, registers)?;
    if parts.nodes() > MOST_NODES {
        return Ok(None);
    }
    let found = few_crossings(alloc, Layered::of(alloc, parts), seed, effort)?;
    if found.crossings > MOST_CROSSINGS {
        return Ok(None);
    }
    Ok(Some(found))
}

// Adds the ends of the strands that go out at the east.
fn add_east(east: &mut Vec<End<East>>, nodes: &[Node], state: &[Running], is_refused: &mut bool) {
    for running in state {
        if let Some(node) = nodes.get(running.to as usize) {
            if let NodeKind::East(is) = node.kind {
                let strand = Some(running.strand);
                add(east, End { strand, is }, is_refused);
            }
        }
    }
}

// Puts what is woven of a graph in this order into a circuit, and then the ends that have no strand. Returns true.
fn put_woven(
    alloc: Global,
    circuit: &mut StrandCircuit,
    nodes: &[Node],
    found: &Ordered,
    list: &CellList,
    values: &Values,
) -> Result<bool, OutOfMemory> {
    let mut weaver = Weaver::new(alloc);
    weaver.weave(nodes, found);
    let mut is_refused = weaver.is_refused;
    add_east(&mut circuit.east, nodes, &weaver.state, &mut is_refused);
    circuit.strands = weaver.strands;
    circuit.tiles = weaver.tiles;
    circuit.west = weaver.west;
    add_unread(&mut circuit.west, values, &mut is_refused);
    add_dark_outs(
        &mut circuit.east,
        values,
        list.outs.as_slice(),
        &mut is_refused,
    );
    if is_refused {
        Err(OutOfMemory::NoMemory)
    } else {
        Ok(true)
    }
}

// Weaves a graph into a circuit, if it is not too large. Returns whether that is done.
fn weave(
    alloc: Global,
    circuit: &mut StrandCircuit,
    nodes: &[Node],
    list: &CellList,
    values: &Values,
    seed: u64,
    effort: Effort,
) -> Result<bool, OutOfMemory> {
    let registers = circuit.registers.len();
    match ordered(alloc, nodes, registers, seed, effort)? {
        Some(found) => put_woven(alloc, circuit, nodes, &found, list, values),
        None => Ok(false),
    }
}

// Makes a circuit that of a list with these values, if it is not too large. Returns whether that is done.
fn fill_with(
    alloc: Global,
    circuit: &mut StrandCircuit,
    list: &CellList,
    values: &Values,
    seed: u64,
    effort: Effort,
) -> Result<bool, OutOfMemory> {
    let mut graph = Graph::new(alloc);
    match fill_graph(alloc, &mut graph, circuit, list, values) {
        Ok(()) => weave(alloc, circuit, &graph.nodes, list, values, seed, effort),
        Err(error) => Err(error),
    }
}

// Makes a circuit that of a list, if it is not too large. Returns whether that is done.
fn fill(
    alloc: Global,
    circuit: &mut StrandCircuit,
    list: &CellList,
    seed: u64,
    effort: Effort,
) -> Result<bool, OutOfMemory> {
    let values = Values::of(alloc, list)?;
    fill_with(alloc, circuit, list, &values, seed, effort)
}

// The circuit of no strands.
fn no_circuit(alloc: Global) -> StrandCircuit {
    StrandCircuit {
        strands: Vec::new(alloc),
        tiles: Vec::new(alloc),
        west: Vec::new(alloc),
        east: Vec::new(alloc),
        registers: Vec::new(alloc),
    }
}

/// Returns a circuit of strands that computes a list of cells, with few crossings; `None` if it would be too large. The
/// same list and seed give the same circuit.
pub fn strand_circuit(
    alloc: Global,
    list: &CellList,
    seed: u64,
    effort: Effort,
) -> Result<Option<StrandCircuit>, OutOfMemory> {
    let mut circuit = no_circuit(alloc);
    if fill(alloc, &mut circuit, list, seed, effort)? {
        Ok(Some(circuit))
    } else {
        Ok(None)
    }
}
