// Drawings of gates as data.

use gate_laws::{InCell, OutCell};
use lists::List;
use ww_rule::State;

/// How an output's bit follows from those of the inputs, which are given by their numbers from 0.
#[derive(Clone, Copy)]
pub enum Answer {
    Copy(u32),
    Or(u32, u32),
    Xor(u32, u32),
    /// The first without the second.
    AndNot(u32, u32),
}

/// When a gate's inputs may be lit.
#[derive(Clone, Copy)]
pub enum Timing {
    /// Each at its own generation of a use.
    Together,
    /// Two inputs at any generations that are at least the gate's time apart, also modulo the period. Each output
    /// is lit its delay after the input that it copies.
    Apart,
}

/// The drawing of a gate: rows of `width` cells, each empty or a conductor; its inputs, each with the generation of a
/// use at which it is lit; its outputs with their delays and their tables, and the same tables as answers; and the
/// generations after which it may be used again.
#[derive(Drop)]
pub struct GateDrawing {
    pub width: u32,
    pub cells: List<State>,
    pub ins: List<InCell>,
    pub outs: List<OutCell>,
    pub answers: List<Answer>,
    pub time: u32,
    pub timing: Timing,
}
