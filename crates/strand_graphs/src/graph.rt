// Graphs of gates and forks.

use crate::forks::{Branch, Tree};
use crate::readers::{Readers, entry_of};
use crate::registers::Registers;
use crate::values::Values;
use cell_core::{Cell, CellList, Src};
use std::alloc::Global;
use strand_core::{East, West, add, put, set, widen};
use strand_orders::small;

/// What a node is.
#[derive(Clone, Copy)]
pub enum NodeKind {
    West(West),
    East(East),
    Or,
    Xor,
    AndNot,
    Fork,
}

/// A node, the nodes from which its entries come, the value that it makes or takes, and its layer.
#[derive(Clone, Copy)]
pub struct Node {
    pub kind: NodeKind,
    pub ins: [Option<u32>; 2],
    pub value: u32,
    pub layer: u32,
}

/// A graph of gates and forks. Each node stands after those from which its entries come.
#[derive(Drop)]
pub struct Graph {
    pub nodes: Vec<Node>,
    // the nodes from which the readers' entries come
    froms: Vec<Option<u32>>,
    tree: Tree,
    // the layers of a value's readers, and the entries at which they read it
    readings: Vec<(u32, u32)>,
    // the nodes from which a tree's forks take what they copy
    stems: Vec<u32>,
    /// Whether memory was refused: then something is missing here.
    pub is_refused: bool,
}

fn kind_of(cell: Cell) -> NodeKind {
    match cell {
        Cell::Or(..) => NodeKind::Or,
        Cell::Xor(..) => NodeKind::Xor,
        Cell::AndNot(..) => NodeKind::AndNot,
    }
}

// The layer behind a node, if there is one.
fn layer_after(nodes: &[Node], node: Option<u32>) -> u32 {
    let Some(node) = node else {
        return 0;
    };
    match nodes.get(node as usize) {
        Some(node) => node.layer.saturating_add(1),
        None => 0,
    }
}

// The layer of a node with these entries.
fn layer_behind(nodes: &[Node], ins: [Option<u32>; 2]) -> u32 {
    layer_after(nodes, ins[0]).max(layer_after(nodes, ins[1]))
}

fn last_layer(nodes: &[Node]) -> u32 {
    let mut last = 1u32;
    for node in nodes {
        last = last.max(node.layer);
    }
    last
}

// Moves a node, if it is a fork, before a layer.
fn hold_fork(nodes: &mut [Node], number: Option<u32>, layer: u32) {
    let Some(number) = number else {
        return;
    };
    if (number as usize) < nodes.len() {
        let node = nodes[number as usize];
        if matches!(node.kind, NodeKind::Fork) {
            nodes[number as usize].layer = node.layer.min(layer.saturating_sub(1));
        }
    }
}

// Moves the ports to the last layer, and the forks before it.
fn move_last(nodes: &mut [Node], last: u32) {
    for node in nodes.iter_mut() {
        match node.kind {
            NodeKind::East(_) => node.layer = last,
            NodeKind::Fork => node.layer = last.saturating_sub(1),
            _ => {}
        }
    }
}

// Moves each fork to the last layer in which it can stand.
fn hold_forks(nodes: &mut [Node]) {
    for number in (0..nodes.len()).rev() {
        if let Some(node) = nodes.get(number).copied() {
            hold_fork(nodes, node.ins[0], node.layer);
            hold_fork(nodes, node.ins[1], node.layer);
        }
    }
}

impl Graph {
    /// Returns a graph of no nodes.
    pub fn new(alloc: Global) -> Graph {
        Graph {
            nodes: Vec::new(alloc),
            froms: Vec::new(alloc),
            tree: Tree::new(alloc),
            readings: Vec::new(alloc),
            stems: Vec::new(alloc),
            is_refused: false,
        }
    }

    /// Makes this the graph of a list, with forks near to the readers, which stand about in the layers that `readers`
    /// says. Notes there in which layers they stand now.
    pub fn grow(
        &mut self,
        list: &CellList,
        values: &Values,
        registers: &Registers,
        readers: &mut Readers,
    ) {
        self.nodes.clear();
        self.froms.clear();
        let entries = entry_of(readers.count) as usize;
        widen(&mut self.froms, entries, None, &mut self.is_refused);
        self.add_inputs(values, readers);
        self.add_registers(values, registers, readers);
        self.add_zeros(values, registers.data.as_slice());
        self.add_cells(list.cells.as_slice(), values, readers);
        let (data, outs) = (small(registers.data.len()), small(list.outs.len()));
        self.add_ports(values.cells, data, outs, readers);
        let last = last_layer(&self.nodes);
        move_last(&mut self.nodes, last);
        hold_forks(&mut self.nodes);
        for reader in values.cells..readers.count {
            put(&mut readers.layers, reader, last);
        }
    }

    // Adds the inputs that are read.
    fn add_inputs(&mut self, values: &Values, readers: &Readers) {
        for input in 0..values.inputs {
            if values.reads_of(input) > 0 {
                self.add_source(West::Input(input), input, readers);
            }
        }
    }

    // Adds the registers, or constant 1 without them.
    fn add_registers(&mut self, values: &Values, registers: &Registers, readers: &Readers) {
        for number in 0..small(registers.registers.len()) {
            let value = registers.value(values, number);
            self.add_source(West::Register(number), value, readers);
        }
        if registers.registers.is_empty() && values.reads_of(values.one()) > 0 {
            self.add_source(West::One, values.one(), readers);
        }
    }

    // Adds constant 0 for each register of which it is the data.
    fn add_zeros(&mut self, values: &Values, data: &[Src]) {
        let mut entry = entry_of(values.cells);
        for src in data {
            if values.number(*src).is_none() {
                let zero = NodeKind::West(West::Zero);
                let node = self.add_node(zero, [None, None], values.zero());
                self.lead(node, Branch::Entry(entry));
            }
            entry = entry.saturating_add(2);
        }
    }

    fn add_source(&mut self, is: West, value: u32, readers: &Readers) {
        let node = self.add_node(NodeKind::West(is), [None, None], value);
        self.add_forks(node, value, readers);
    }

    // Adds a node behind those from which its entries come, and returns its number.
    fn add_node(&mut self, kind: NodeKind, ins: [Option<u32>; 2], value: u32) -> u32 {
        let number = small(self.nodes.len());
        let node = Node {
            kind,
            ins,
            value,
            layer: layer_behind(&self.nodes, ins),
        };
        add(&mut self.nodes, node, &mut self.is_refused);
        number
    }

    fn from_of(&self, entry: u32) -> Option<u32> {
        if (entry as usize) < self.froms.len() {
            self.froms[entry as usize]
        } else {
            None
        }
    }

    // Adds a cell or port, and notes its layer. Returns its number.
    fn add_reader(
        &mut self,
        kind: NodeKind,
        reader: u32,
        value: u32,
        readers: &mut Readers,
    ) -> u32 {
        let entry = entry_of(reader);
        let ins = [self.from_of(entry), self.from_of(entry.saturating_add(1))];
        put(&mut readers.layers, reader, layer_behind(&self.nodes, ins));
        self.add_node(kind, ins, value)
    }

    fn add_cells(&mut self, cells: &[Cell], values: &Values, readers: &mut Readers) {
        let mut number = 0u32;
        for cell in cells {
            if values.is_made(number) {
                let value = values.made_by(number);
                let node = self.add_reader(kind_of(*cell), number, value, readers);
                self.add_forks(node, value, readers);
            }
            number = number.saturating_add(1);
        }
    }

    // Adds the registers' data and the outputs, but for those that are dark. The first of these readers is told.
    fn add_ports(&mut self, first: u32, data: u32, outs: u32, readers: &mut Readers) {
        for number in 0..data.saturating_add(outs) {
            let is = match number.checked_sub(data) {
                None => East::Register(number),
                Some(output) => East::Output(output),
            };
            self.add_port(is, first.saturating_add(number), readers);
        }
    }

    fn add_port(&mut self, is: East, reader: u32, readers: &mut Readers) {
        let Some(from) = self.from_of(entry_of(reader)) else {
            return;
        };
        let value = match self.nodes.get(from as usize) {
            Some(node) => node.value,
            None => 0,
        };
        self.add_reader(NodeKind::East(is), reader, value, readers);
    }

    // Adds the tree of forks behind a node.
    fn add_forks(&mut self, node: u32, value: u32, readers: &Readers) {
        self.readings.clear();
        readers.add_readings(&mut self.readings, value, &mut self.is_refused);
        if self.readings.len() == 1 {
            let (_, entry) = self.readings[0];
            self.lead(node, Branch::Entry(entry));
            return;
        }
        self.tree.grow(&mut self.readings);
        self.is_refused |= self.tree.is_refused;
        self.stems.clear();
        let forks = self.tree.forks.len();
        widen(&mut self.stems, forks, node, &mut self.is_refused);
        for number in (0..forks).rev() {
            self.add_fork(number, value);
        }
    }

    fn add_fork(&mut self, number: usize, value: u32) {
        let stem = self.stems.get(number).copied();
        let fork = self.add_node(NodeKind::Fork, [stem, None], value);
        let branches = self.tree.forks.get(number).copied();
        if let Some((first, second)) = branches {
            self.lead(fork, first);
            self.lead(fork, second);
        }
    }

    // Leads what a node makes to a branch.
    fn lead(&mut self, node: u32, branch: Branch) {
        match branch {
            Branch::Entry(entry) => set(&mut self.froms, entry, Some(node)),
            Branch::Fork(fork) => put(&mut self.stems, fork, node),
        }
    }
}
