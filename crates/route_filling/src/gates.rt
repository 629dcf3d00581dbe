// The gates of a drawing, their kinds, and the numbers of their ports.

use gate_library::{
    Drawing, DrawnGate, DrawnPort, GateDrawing, GateKind, GatePort, LawfulGate, drawing_of,
};
use route_tables::{CellFault, FaultWord};
use std::alloc::Global;

/// The number of a gate's kind, and those of its ports among the ports of all gates: its inputs are those from `ins`
/// on, its outputs those from `outs` on, and `end` is the number after its last one.
#[derive(Clone, Copy)]
pub struct GateRow {
    pub kind: u32,
    pub ins: usize,
    pub outs: usize,
    pub end: usize,
}

/// The kinds of a drawing's gates, each once, if their drawings keep a law, and the rows of the gates.
#[derive(Drop)]
pub struct GateRows {
    pub kinds: Vec<LawfulGate>,
    pub rows: Vec<GateRow>,
}

/// Returns a number as a `u32`, or the greatest one if it is greater.
pub fn small(number: usize) -> u32 {
    u32::try_from(number).unwrap_or(u32::MAX)
}

/// Returns a fault at the gate with this number.
pub fn at_gate(drawing: &Drawing, number: u32, word: FaultWord) -> CellFault {
    match drawing.gates.as_slice().get(number as usize) {
        Some(gate) => CellFault {
            word,
            x: gate.x,
            y: gate.y,
        },
        None => CellFault { word, x: 0, y: 0 },
    }
}

// The number of a kind among these, or how many they are if it is none of them.
fn kind_number(names: &[GateKind], kind: GateKind) -> usize {
    for number in 0..names.len() {
        if names[number] == kind {
            return number;
        }
    }
    names.len()
}

// The row of a gate of the kind with this number, whose ports are those from `first` on.
fn row_of(kinds: &[LawfulGate], kind: usize, first: usize) -> GateRow {
    let (mut ins, mut outs) = (0, 0);
    if kind < kinds.len() {
        let drawing = kinds[kind].drawing();
        (ins, outs) = (drawing.ins.len(), drawing.outs.len());
    }
    GateRow {
        kind: small(kind),
        ins: first,
        outs: first.saturating_add(ins),
        end: first.saturating_add(ins).saturating_add(outs),
    }
}

// Adds a kind, unless its drawing keeps no law; returns whether memory ran out.
fn add_kind(
    names: &mut Vec<GateKind>,
    kinds: &mut Vec<LawfulGate>,
    alloc: Global,
    kind: GateKind,
) -> bool {
    let Ok(drawing) = drawing_of(alloc, kind) else {
        return true;
    };
    match LawfulGate::of(drawing) {
        Some(lawful) => kinds.push(lawful).is_err() | names.push(kind).is_err(),
        None => false,
    }
}

// Adds the kinds of gates, each once; returns whether memory ran out.
fn add_kinds(
    names: &mut Vec<GateKind>,
    kinds: &mut Vec<LawfulGate>,
    alloc: Global,
    gates: &[DrawnGate],
) -> bool {
    for gate in gates {
        if kind_number(names, gate.kind) == names.len()
            && add_kind(names, kinds, alloc, gate.kind)
        {
            return true;
        }
    }
    false
}

impl GateRows {
    /// Returns the rows of no gates.
    pub fn new(alloc: Global) -> GateRows {
        GateRows {
            kinds: Vec::new(alloc),
            rows: Vec::new(alloc),
        }
    }

    // Adds the rows of gates, whose kinds have these names.
    fn add_rows(&mut self, names: &[GateKind], gates: &[DrawnGate]) -> bool {
        let mut first = 0usize;
        for gate in gates {
            let row = row_of(&self.kinds, kind_number(names, gate.kind), first);
            first = row.end;
            if self.rows.push(row).is_err() {
                return true;
            }
        }
        false
    }

    /// Adds the gates of a drawing, whose ports are numbered one gate after the other; returns whether memory ran out.
    pub fn fill(&mut self, alloc: Global, gates: &[DrawnGate]) -> bool {
        let mut names = Vec::new(alloc);
        add_kinds(&mut names, &mut self.kinds, alloc, gates) || self.add_rows(&names, gates)
    }

    /// Returns the first gate whose kind keeps no law, if there is one.
    pub fn unlawful(&self) -> Option<u32> {
        for number in 0..self.rows.len() {
            if self.rows[number].kind as usize >= self.kinds.len() {
                return Some(small(number));
            }
        }
        None
    }

    /// Returns the drawing of the gate with this number, if its kind keeps its law.
    pub fn drawing_of(&self, number: usize) -> Option<&GateDrawing> {
        if number < self.rows.len() {
            let kind = self.rows[number].kind as usize;
            if kind < self.kinds.len() {
                return Some(self.kinds[kind].drawing());
            }
        }
        None
    }
}

/// Returns the number of a port among those of all gates, which is past the last one's if the port is not there.
pub fn port_number(rows: &[GateRow], at: DrawnPort) -> usize {
    let Some(row) = rows.get(at.gate as usize) else {
        return usize::MAX;
    };
    let (number, end) = match at.port {
        GatePort::In(i) => (row.ins.saturating_add(i as usize), row.outs),
        GatePort::Out(o) => (row.outs.saturating_add(o as usize), row.end),
    };
    if number < end { number } else { usize::MAX }
}
