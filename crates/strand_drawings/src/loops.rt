// The registers of a circuit as loops around it.

use register_ways::Loop;
use std::alloc::Global;
use strand_core::{East, Layout, Register, StrandCircuit, West, add, at, set, widen};

/// The registers that are drawn, as loops in their order at the east. `numbers` has the loop of each register, and
/// `entries` the strand that comes in from it.
#[derive(Drop)]
pub struct Loops {
    pub loops: Vec<Loop>,
    pub numbers: Vec<Option<u32>>,
    pub entries: Vec<Option<u32>>,
    /// Whether memory was refused: then something is missing here.
    pub is_refused: bool,
}

/// Returns the cells of a path between two places.
pub fn cells_between(path: &[(u32, u32)], begin: u32, end: u32) -> &[(u32, u32)] {
    let (begin, end) = (begin as usize, end as usize);
    if begin <= end && end <= path.len() {
        &path[begin..end]
    } else {
        &[]
    }
}

/// Returns the cells of a strand.
pub fn cells_of(layout: &Layout, strand: u32) -> &[(u32, u32)] {
    let begin = at(&layout.starts, strand);
    let end = at(&layout.starts, strand.saturating_add(1));
    cells_between(&layout.path, begin, end)
}

/// Returns the first cell of a strand and its last one, if there is one and it is drawn.
pub fn ends_of(layout: &Layout, strand: Option<u32>) -> Option<((u32, u32), (u32, u32))> {
    let cells = cells_of(layout, strand?);
    match (cells.first(), cells.last()) {
        (Some(first), Some(last)) => Some((*first, *last)),
        _ => None,
    }
}

/// Returns the generations by which a strand's signal is later than its column, or 0 for no strand.
pub fn late_of(circuit: &StrandCircuit, strand: Option<u32>) -> u32 {
    let Some(strand) = strand else {
        return 0;
    };
    match circuit.strands.get(strand as usize) {
        Some(strand) => strand.late,
        None => 0,
    }
}

/// Returns the number at a place of a table, if there is one.
pub fn number_at(numbers: &[Option<u32>], place: u32) -> Option<u32> {
    match numbers.get(place as usize) {
        Some(number) => *number,
        None => None,
    }
}

fn note_entries(entries: &mut [Option<u32>], circuit: &StrandCircuit) {
    for end in &circuit.west {
        if let (Some(strand), West::Register(register)) = (end.strand, end.is) {
            set(entries, register, Some(strand));
        }
    }
}

fn cycles_of(registers: &[Register], register: u32) -> u32 {
    match registers.get(register as usize) {
        Some(register) => u32::try_from(register.starts.len()).unwrap_or(u32::MAX),
        None => 0,
    }
}

// Whether each register that comes in at the west has a loop.
fn are_closed(entries: &[Option<u32>], numbers: &[Option<u32>]) -> bool {
    let mut register = 0u32;
    for entry in entries {
        if entry.is_some() && number_at(numbers, register).is_none() {
            return false;
        }
        register = register.saturating_add(1);
    }
    true
}

// Whether the loops are in the same order at both sides.
fn are_in_order(loops: &[Loop]) -> bool {
    let (mut exit, mut entry) = (0, 0);
    for next in loops {
        if next.exit < exit || next.entry < entry || next.cycles == 0 {
            return false;
        }
        (exit, entry) = (next.exit, next.entry);
    }
    true
}

impl Loops {
    /// Returns no loops.
    pub fn new(alloc: Global) -> Loops {
        Loops {
            loops: Vec::new(alloc),
            numbers: Vec::new(alloc),
            entries: Vec::new(alloc),
            is_refused: false,
        }
    }

    // Adds the loop of a register whose data go out in a strand. Returns whether it has an entry.
    fn add_loop(
        &mut self,
        circuit: &StrandCircuit,
        layout: &Layout,
        register: u32,
        exit: Option<u32>,
    ) -> bool {
        let entry = number_at(&self.entries, register);
        let (Some((_, last)), Some((first, _))) = (ends_of(layout, exit), ends_of(layout, entry))
        else {
            return false;
        };
        let next = Loop {
            exit: last.1,
            entry: first.1,
            cycles: cycles_of(&circuit.registers, register),
            lag: layout
                .width
                .saturating_sub(1)
                .saturating_add(late_of(circuit, exit))
                .saturating_sub(late_of(circuit, entry)),
        };
        let number = u32::try_from(self.loops.len()).unwrap_or(u32::MAX);
        set(&mut self.numbers, register, Some(number));
        add(&mut self.loops, next, &mut self.is_refused);
        true
    }

    // Adds the loops in their order at the east. Returns whether all have an entry.
    fn add_all(&mut self, circuit: &StrandCircuit, layout: &Layout) -> bool {
        for end in &circuit.east {
            if let (Some(_), East::Register(register)) = (end.strand, end.is) {
                if !self.add_loop(circuit, layout, register, end.strand) {
                    return false;
                }
            }
        }
        true
    }

    /// Finds the loops of a circuit. Returns whether each register has an entry and an exit, and they are in the same order
    /// at both sides.
    pub fn find(&mut self, circuit: &StrandCircuit, layout: &Layout) -> bool {
        let registers = circuit.registers.len();
        widen(&mut self.numbers, registers, None, &mut self.is_refused);
        widen(&mut self.entries, registers, None, &mut self.is_refused);
        note_entries(&mut self.entries, circuit);
        self.add_all(circuit, layout)
            && are_closed(&self.entries, &self.numbers)
            && are_in_order(&self.loops)
    }
}
