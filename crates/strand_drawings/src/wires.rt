// The wires of a drawing.

use crate::gates::{Corner, Gates, Goal};
use crate::loops::{Loops, cells_between, cells_of, number_at};
use crate::rings::Ring;
use cell_core::Src;
use gate_library::{DrawnPort, DrawnWire};
use register_ways::Ways;
use std::alloc::Global;
use strand_core::{Layout, Register, StrandCircuit, add};

/// What wires are made of: a circuit with its cells, the ways of its registers around it, and its ring.
#[derive(Clone, Copy)]
pub struct Scene<'a> {
    pub circuit: &'a StrandCircuit,
    pub layout: &'a Layout,
    pub loops: &'a Loops,
    pub ways: &'a Ways,
    pub corner: Corner,
    pub ring: Option<Ring>,
}

/// Wires, their cells, their start bits, and which latch of the list of cells each of these belongs to: constant 1 for the
/// register that is always 1, and for the wires of a ring.
#[derive(Drop)]
pub struct Wires {
    pub wires: Vec<DrawnWire>,
    pub path: Vec<(u32, u32)>,
    pub starts: Vec<bool>,
    pub latches: Vec<Src>,
    /// Whether memory was refused: then something is missing here.
    pub is_refused: bool,
}

fn count(length: usize) -> u32 {
    u32::try_from(length).unwrap_or(u32::MAX)
}

// The cells of a register's way.
fn way_of(scene: Scene, register: u32) -> &[(u32, u32)] {
    let way = number_at(&scene.loops.numbers, register).unwrap_or(u32::MAX);
    match scene.ways.spans.get(way as usize) {
        Some((begin, end)) => cells_between(&scene.ways.path, *begin, *end),
        None => &[],
    }
}

// Where a strand leads.
fn goal_of(goals: &[Goal], strand: u32) -> Goal {
    match goals.get(strand as usize) {
        Some(goal) => *goal,
        None => Goal::Nowhere,
    }
}

// The strand behind a bump or a register.
fn next_of(loops: &Loops, goal: Goal) -> Option<u32> {
    match goal {
        Goal::Bump { next, .. } => next,
        Goal::Register(register) => number_at(&loops.entries, register),
        Goal::Input { .. } | Goal::Nowhere => None,
    }
}

// Adds the cells of a strand, from one of them on. Notes if memory is refused.
fn add_strand(
    path: &mut Vec<(u32, u32)>,
    scene: Scene,
    strand: u32,
    from: usize,
    is_refused: &mut bool,
) {
    let cells = cells_of(scene.layout, strand);
    for i in from..cells.len() {
        add(path, scene.corner.shifted(cells[i]), is_refused);
    }
}

// Adds the cells of a bump behind a cell, which makes the wire so many generations longer. Notes if memory is refused.
fn add_bump(path: &mut Vec<(u32, u32)>, cell: (u32, u32), extra: u32, is_refused: &mut bool) {
    let high = (extra / 2).saturating_add(2);
    let size = high.saturating_mul(2);
    for step in 1..size {
        let (east, north) = if step < high {
            (1, step)
        } else if step == high {
            (2, high)
        } else {
            (3, size.saturating_sub(step))
        };
        let near = (cell.0.saturating_add(east), cell.1.saturating_sub(north));
        add(path, near, is_refused);
    }
}

impl Wires {
    /// Returns no wires.
    pub fn new(alloc: Global) -> Wires {
        Wires {
            wires: Vec::new(alloc),
            path: Vec::new(alloc),
            starts: Vec::new(alloc),
            latches: Vec::new(alloc),
            is_refused: false,
        }
    }

    // Adds the start bits of a register, and its latches. One without latches is always 1.
    fn add_latches(&mut self, register: &Register) {
        let starts = register.starts.as_slice();
        self.is_refused |= self.starts.extend_from_slice(starts).is_err();
        for latch in &register.latches {
            add(&mut self.latches, Src::Latch(*latch), &mut self.is_refused);
        }
        if register.latches.is_empty() {
            add(&mut self.latches, Src::One, &mut self.is_refused);
        }
    }

    // Adds the start bits of a register, and the cells of its way.
    fn add_register(&mut self, scene: Scene, register: u32) {
        if let Some(found) = scene.circuit.registers.get(register as usize) {
            self.add_latches(found);
        }
        let way = way_of(scene, register);
        self.is_refused |= self.path.extend_from_slice(way).is_err();
    }

    // Adds the cells of a bump or of a register's way, and those of the strand behind it.
    fn pass(&mut self, scene: Scene, goal: Goal, next: u32) {
        match goal {
            Goal::Bump { cell, extra, .. } => {
                add_bump(&mut self.path, cell, extra, &mut self.is_refused);
            }
            Goal::Register(register) => self.add_register(scene, register),
            Goal::Input { .. } | Goal::Nowhere => {}
        }
        add_strand(&mut self.path, scene, next, 0, &mut self.is_refused);
    }

    // Adds latches that are always 1.
    fn add_ones(&mut self, count: u32) {
        for _ in 0..count {
            add(&mut self.starts, true, &mut self.is_refused);
            add(&mut self.latches, Src::One, &mut self.is_refused);
        }
    }

    // Adds the cells of the strand with which a wire begins, and of the lead from a ring to it.
    fn begin(&mut self, scene: Scene, strand: u32) {
        let mut from = 1;
        if let Some(ring) = scene.ring {
            if ring.strand == strand {
                self.add_ones(1);
                ring.add_lead(&mut self.path, scene.corner.north, &mut self.is_refused);
                from = 0;
            }
        }
        add_strand(&mut self.path, scene, strand, from, &mut self.is_refused);
    }

    // Adds the wire from a port to an input of a gate whose cells and start bits begin at these places.
    fn add_wire(&mut self, from: DrawnPort, to: (u32, u32), start: u32, latch: u32) {
        let wire = DrawnWire {
            from,
            gate: to.0,
            input: to.1,
            start,
            size: count(self.path.len()).saturating_sub(start),
            latch,
            cycles: count(self.starts.len()).saturating_sub(latch),
        };
        add(&mut self.wires, wire, &mut self.is_refused);
    }

    /// Adds a ring, from a port of its fork to the fork.
    pub fn add_ring(&mut self, ring: Ring, from: DrawnPort, north: u32) {
        let (start, latch) = (count(self.path.len()), count(self.starts.len()));
        ring.add_ring(&mut self.path, north, &mut self.is_refused);
        self.add_ones(ring.cycles);
        self.add_wire(from, (from.gate, 0), start, latch);
    }

    // Adds the cells of a wire from the strand with which it begins on, and answers where it ends.
    fn follow(&mut self, scene: Scene, goals: &[Goal], strand: u32) -> Goal {
        let mut goal = goal_of(goals, strand);
        self.begin(scene, strand);
        for _ in 0..goals.len() {
            let Some(next) = next_of(scene.loops, goal) else {
                break;
            };
            self.pass(scene, goal, next);
            goal = goal_of(goals, next);
        }
        goal
    }

    // Adds the wire that begins with a strand. Answers whether it leads to an input.
    fn add(&mut self, scene: Scene, goals: &[Goal], from: DrawnPort, strand: u32) -> bool {
        let (start, latch) = (count(self.path.len()), count(self.starts.len()));
        let Goal::Input { gate, input } = self.follow(scene, goals, strand) else {
            return false;
        };
        self.path.pop();
        self.add_wire(from, (gate, input), start, latch);
        true
    }

    /// Adds the wires of all strands that begin at ports. Returns whether all lead to inputs.
    pub fn add_all(&mut self, scene: Scene, gates: &Gates) -> bool {
        let mut strand = 0u32;
        for source in &gates.sources {
            if let Some(from) = source {
                if !self.add(scene, &gates.goals, *from, strand) {
                    return false;
                }
            }
            strand = strand.saturating_add(1);
        }
        true
    }
}
