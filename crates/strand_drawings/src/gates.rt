// The gates of a circuit's tiles, and the lone cells of its inputs and outputs.

use crate::loops::{ends_of, late_of};
use gate_library::{DrawnGate, DrawnPort, GateKind, GatePort, Shape, Turn};
use std::alloc::{AllocError, Global};
use strand_core::{East, Layout, StrandCircuit, Tile, TileKind, West, add, widen};

/// Where a strand leads: to an input of a gate, into a bump of so many generations behind a cell and from there to
/// another strand, into a register, or nowhere.
#[derive(Clone, Copy)]
pub enum Goal {
    Input {
        gate: u32,
        input: u32,
    },
    Bump {
        cell: (u32, u32),
        extra: u32,
        next: Option<u32>,
    },
    Register(u32),
    Nowhere,
}

/// Gates, the port at which each strand begins unless it goes on from a bump or a register, and where each leads.
#[derive(Drop)]
pub struct Gates {
    pub gates: Vec<DrawnGate>,
    pub sources: Vec<Option<DrawnPort>>,
    pub goals: Vec<Goal>,
    /// Whether memory was refused: then something is missing here.
    pub is_refused: bool,
}

/// The cell of a box at which its circuit's first cell is.
#[derive(Clone, Copy)]
pub struct Corner {
    pub west: u32,
    pub north: u32,
}

impl Corner {
    /// Returns a cell of the circuit as one of the box.
    pub fn shifted(self, cell: (u32, u32)) -> (u32, u32) {
        (
            cell.0.saturating_add(self.west),
            cell.1.saturating_add(self.north),
        )
    }
}

// The gate of a tile. A crossing whose lower signal comes first is mirrored. A bump is none.
fn kind_of(kind: TileKind, is_lower_first: bool) -> Option<GateKind> {
    let (shape, is_mirrored) = match kind {
        TileKind::Cross => (Shape::Cross, is_lower_first),
        TileKind::Xor => (Shape::Xor, false),
        TileKind::Or => (Shape::Or, false),
        TileKind::AndNot => (Shape::AndNotLevel, false),
        TileKind::AndNotBelow => (Shape::AndNotLevel, true),
        TileKind::Fork => (Shape::Fork, false),
        TileKind::Bump(_) => return None,
    };
    let turn = if is_mirrored {
        Turn::EastMirrored
    } else {
        Turn::East
    };
    Some(GateKind { shape, turn })
}

fn set_goal(goals: &mut [Goal], strand: Option<u32>, goal: Goal) {
    if let Some(strand) = strand {
        if (strand as usize) < goals.len() {
            goals[strand as usize] = goal;
        }
    }
}

/// Notes at which port a strand begins.
pub fn set_source(sources: &mut [Option<DrawnPort>], strand: Option<u32>, port: DrawnPort) {
    if let Some(strand) = strand {
        if (strand as usize) < sources.len() {
            sources[strand as usize] = Some(port);
        }
    }
}

// The gate of a tile whose first entry is at a cell.
fn gate_of(
    kind: GateKind,
    tile: Tile,
    circuit: &StrandCircuit,
    cell: (u32, u32),
    corner: Corner,
) -> DrawnGate {
    let (upper, lower) = (late_of(circuit, tile.ins[0]), late_of(circuit, tile.ins[1]));
    let is_crossing = kind.shape == Shape::Cross;
    let first = if is_crossing { upper.min(lower) } else { upper };
    let (x, y) = corner.shifted(cell);
    DrawnGate {
        kind,
        x,
        y: if kind.shape == Shape::Fork {
            y.saturating_sub(2)
        } else {
            y
        },
        first: cell.0.saturating_add(first),
        later: if is_crossing {
            upper.abs_diff(lower)
        } else {
            0
        },
    }
}

/// Returns the port of an output of a gate.
pub fn output_port(gate: u32, output: u32) -> DrawnPort {
    DrawnPort {
        gate,
        port: GatePort::Out(output),
    }
}

impl Gates {
    /// Returns no gates.
    pub fn new(alloc: Global) -> Gates {
        Gates {
            gates: Vec::new(alloc),
            sources: Vec::new(alloc),
            goals: Vec::new(alloc),
            is_refused: false,
        }
    }

    /// Returns the number of the gate that is added next.
    pub fn next(&self) -> u32 {
        u32::try_from(self.gates.len()).unwrap_or(u32::MAX)
    }

    /// Adds a gate.
    pub fn add(&mut self, gate: DrawnGate) {
        add(&mut self.gates, gate, &mut self.is_refused);
    }

    // Joins the strands of a tile to the gate that is added next. The upper one of a mirrored gate is its second.
    fn join(&mut self, tile: Tile, kind: GateKind) {
        let gate = self.next();
        let in_turn = u32::from(kind.turn == Turn::EastMirrored);
        let out_turn = if kind.shape == Shape::Cross {
            in_turn
        } else {
            0
        };
        for side in 0..2u32 {
            let input = side ^ in_turn;
            set_goal(
                &mut self.goals,
                tile.ins[side as usize],
                Goal::Input { gate, input },
            );
            let port = output_port(gate, side ^ out_turn);
            set_source(&mut self.sources, tile.outs[side as usize], port);
        }
    }

    // Adds the gate of a tile whose first entry is at a cell, or notes a bump.
    fn add_tile(&mut self, circuit: &StrandCircuit, tile: Tile, cell: (u32, u32), corner: Corner) {
        let is_lower_first = late_of(circuit, tile.ins[1]) < late_of(circuit, tile.ins[0]);
        if let Some(kind) = kind_of(tile.kind, is_lower_first) {
            self.join(tile, kind);
            self.add(gate_of(kind, tile, circuit, cell, corner));
        } else if let TileKind::Bump(extra) = tile.kind {
            let goal = Goal::Bump {
                cell: corner.shifted(cell),
                extra,
                next: tile.outs[0],
            };
            set_goal(&mut self.goals, tile.ins[0], goal);
        }
    }

    /// Adds the gates of all tiles to no gates.
    pub fn add_tiles(&mut self, circuit: &StrandCircuit, layout: &Layout, corner: Corner) {
        let strands = circuit.strands.len();
        widen(&mut self.sources, strands, None, &mut self.is_refused);
        widen(
            &mut self.goals,
            strands,
            Goal::Nowhere,
            &mut self.is_refused,
        );
        let mut number = 0usize;
        for tile in &circuit.tiles {
            if number < layout.tiles.len() {
                self.add_tile(circuit, *tile, layout.tiles[number], corner);
            }
            number = number.saturating_add(1);
        }
    }

    /// Adds a lone cell of the box that is lit at a generation first, and returns its port.
    pub fn add_lone(&mut self, cell: (u32, u32), first: u32) -> DrawnPort {
        let gate = self.next();
        let kind = GateKind {
            shape: Shape::Lone,
            turn: Turn::East,
        };
        self.add(DrawnGate {
            kind,
            x: cell.0,
            y: cell.1,
            first,
            later: 0,
        });
        DrawnPort {
            gate,
            port: GatePort::In(0),
        }
    }
}

/// The ports of inputs and of outputs, by their numbers; those that have no strand have none yet.
#[derive(Drop)]
pub struct Ports {
    pub ins: Vec<Option<DrawnPort>>,
    pub outs: Vec<Option<DrawnPort>>,
    pub latency: u32,
}

// Adds the lone cells of inputs, and those of constant 0, which are never lit.
fn add_inputs(
    gates: &mut Gates,
    ins: &mut [Option<DrawnPort>],
    circuit: &StrandCircuit,
    layout: &Layout,
    corner: Corner,
) {
    for end in &circuit.west {
        let input = match end.is {
            West::Input(input) => Some(input),
            West::Zero => None,
            West::Register(_) | West::One => continue,
        };
        if let Some((cell, _)) = ends_of(layout, end.strand) {
            let first = cell.0.saturating_add(late_of(circuit, end.strand));
            let port = gates.add_lone(corner.shifted(cell), first);
            set_source(&mut gates.sources, end.strand, port);
            set_source(ins, input, port);
        }
    }
}

// Adds the lone cells of outputs, and notes which strands lead into registers. Answers when the outputs are lit first.
fn add_outputs(
    gates: &mut Gates,
    outs: &mut [Option<DrawnPort>],
    circuit: &StrandCircuit,
    layout: &Layout,
    corner: Corner,
) -> u32 {
    let mut latency = 0;
    for end in &circuit.east {
        match (end.is, ends_of(layout, end.strand)) {
            (East::Register(register), _) => {
                set_goal(&mut gates.goals, end.strand, Goal::Register(register));
            }
            (East::Output(output), Some((_, cell))) => {
                latency = cell.0.saturating_add(late_of(circuit, end.strand));
                let port = gates.add_lone(corner.shifted(cell), latency);
                let goal = Goal::Input {
                    gate: port.gate,
                    input: 0,
                };
                set_goal(&mut gates.goals, end.strand, goal);
                set_source(outs, Some(output), port);
            }
            (East::Output(_), None) => {}
        }
    }
    latency
}

impl Ports {
    /// Returns the ports of so many inputs and outputs, none of which is found.
    pub fn of(alloc: Global, inputs: u32, outputs: u32) -> Result<Ports, AllocError> {
        let ins = vec![in alloc; None; inputs as usize]?;
        let outs = vec![in alloc; None; outputs as usize]?;
        Ok(Ports {
            ins,
            outs,
            latency: 0,
        })
    }

    /// Adds the lone cells of the inputs and outputs that have strands, and notes their ports.
    pub fn find(
        &mut self,
        gates: &mut Gates,
        circuit: &StrandCircuit,
        layout: &Layout,
        corner: Corner,
    ) {
        add_inputs(gates, &mut self.ins, circuit, layout, corner);
        self.latency = add_outputs(gates, &mut self.outs, circuit, layout, corner);
    }
}
