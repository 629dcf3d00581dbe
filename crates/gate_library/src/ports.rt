// The ports of lawful gates.
ghost use Rattle.std.specs.Prelude.{◌≡◌, ◌+◌, ◌∷◌, [], cond, length, map, pos, ℕ, slice_get};
ghost use Rattle.std.specs.Option.{option_map};
ghost use Rattle.lists.specs.Items.{flag_at, list_at};
ghost use Rattle.gate_laws.specs.Drawings.{in_port_of, out_port_of, out_table, in_at};
ghost use Rattle.gate_laws.specs.Crossings.{spread_outs};
ghost use Rattle.gate_library.specs.Lawful.{gate_at, port_in_cell};

use crate::{LawfulGate, Timing};
use gate_laws::{InCell, OutCell};

/// Where a port stands, and a generation at which it is lit.
#[derive(Clone, Copy)]
pub struct PortCell {
    pub x: u32,
    pub y: u32,
    pub generation: u64,
}

fn input_together(ins: &[InCell], i: usize) -> Option<PortCell>
    ensures { option_map port_in_cell result ≡ slice_get (map in_port_of ins.now) i }
{
    match ins.get(i) {
        Some(cell) => Some(PortCell {
            x: cell.x,
            y: cell.y,
            generation: cell.generation as u64,
        }),
        None => None,
    }
}

/// Returns an input, or one at the first cell if it is not there.
pub fn in_at(ins: &[InCell], i: usize) -> InCell
    ensures { result ≡ in_at ins.now i }
{
    match ins.get(i) {
        Some(cell) => *cell,
        None => InCell {
            x: 0,
            y: 0,
            generation: 0,
        },
    }
}

fn lit_at(cell: InCell, generation: u32) -> PortCell
    ensures { port_in_cell result ≡ ((pos cell.x, pos cell.y), generation) }
{
    PortCell {
        x: cell.x,
        y: cell.y,
        generation: generation as u64,
    }
}

fn input_apart(ins: &[InCell], i: usize, later: u32) -> Option<PortCell>
    ensures { option_map port_in_cell result ≡ slice_get (
        ((pos (in_at ins.now 0).x, pos (in_at ins.now 0).y), 0)
        ∷ ((pos (in_at ins.now 1).x, pos (in_at ins.now 1).y), later) ∷ []) i }
{
    match i {
        0 => Some(lit_at(in_at(ins, 0), 0)),
        1 => Some(lit_at(in_at(ins, 1), later)),
        _ => None,
    }
}

fn output_together(outs: &[OutCell], o: usize) -> Option<PortCell>
    ensures { option_map port_in_cell result ≡ slice_get (map out_port_of outs.now) o }
{
    match outs.get(o) {
        Some(out) => Some(PortCell {
            x: out.x,
            y: out.y,
            generation: out.delay as u64,
        }),
        None => None,
    }
}

// The delay of an output, which the second input lights if its table says so.
fn spread_delay(out: OutCell, later: u32) -> u64
    ensures { result ≡ cond (flag_at out.table 2) later 0 + out.delay }
{
    if out.table[2] {
        later as u64 + out.delay as u64
    } else {
        out.delay as u64
    }
}

fn output_apart(outs: &[OutCell], o: usize, later: u32) -> Option<PortCell>
    ensures { option_map port_in_cell result ≡ slice_get (spread_outs (λ k. flag_at (list_at
        (map out_table outs.now) k) 2) later (map out_port_of outs.now)) o }
{
    match outs.get(o) {
        Some(out) => Some(PortCell {
            x: out.x,
            y: out.y,
            generation: spread_delay(*out, later),
        }),
        None => None,
    }
}

impl LawfulGate {
    /// Returns how many inputs there are.
    pub fn inputs(&self) -> usize
        ensures { (later : ℕ) → result ≡ length (gate_at self.now later).ins }
    {
        let drawing = self.drawing();
        match drawing.timing {
            Timing::Together => drawing.ins.len(),
            Timing::Apart => 2,
        }
    }

    /// Returns an input, if it is there, with its generation of a use. If the inputs are lit apart,
    /// the second is lit `later` generations after the first.
    pub fn input(&self, i: u32, later: u32) -> Option<PortCell>
        ensures { option_map port_in_cell result ≡ slice_get (gate_at self.now later).ins i }
    {
        let drawing = self.drawing();
        match drawing.timing {
            Timing::Together => input_together(drawing.ins.as_slice(), i as usize),
            Timing::Apart => input_apart(drawing.ins.as_slice(), i as usize, later),
        }
    }

    /// Returns an output, if it is there, with its delay in such a use.
    pub fn output(&self, o: u32, later: u32) -> Option<PortCell>
        ensures { option_map port_in_cell result ≡ slice_get (gate_at self.now later).outs o }
    {
        let drawing = self.drawing();
        match drawing.timing {
            Timing::Together => output_together(drawing.outs.as_slice(), o as usize),
            Timing::Apart => output_apart(drawing.outs.as_slice(), o as usize, later),
        }
    }
}
