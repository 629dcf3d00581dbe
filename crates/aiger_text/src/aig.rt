// Circuits as values.
use lists::{Bytes, List};

/// A latch: its literal, the literal whose bit is its next state, and its reset, which is 0, 1 or
/// its own literal, and 0 if the text leaves it out.
#[derive(Clone, Copy)]
pub struct AigLatch {
    pub lit: u64,
    pub next: u64,
    pub reset: u64,
}

/// An AND gate: the literal of its output, which is the left side, and those of its two inputs.
#[derive(Clone, Copy)]
pub struct AigAnd {
    pub lhs: u64,
    pub rhs0: u64,
    pub rhs1: u64,
}

/// A circuit of inputs, latches, AND gates and outputs. A literal is twice the number of a
/// variable, plus 1 if it is negated; literal 0 is the constant 0. In a sound circuit
/// (`IsSoundAig`) no variable is greater than `m`. `names` has the names of the inputs, and then
/// those of the outputs.
#[derive(Drop)]
pub struct Aig {
    pub m: u64,
    pub inputs: List<u64>,
    pub latches: List<AigLatch>,
    pub outputs: List<u64>,
    pub ands: List<AigAnd>,
    pub names: List<Bytes>,
}
