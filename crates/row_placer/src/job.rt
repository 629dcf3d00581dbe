// What is placed: gates over numbered values.
ghost use Rattle.std.specs.Prelude.{◌+◌, ◌<◌, ◌^◌, length};
ghost use Rattle.row_placer.specs.Uses.{AreKnown};

use crate::Tag;
use lists::List;

/// The kind of a gate.
#[derive(Clone, Copy)]
pub enum CellKind {
    Or,
    Xor,
    AndNot,
}

/// A gate over two values, by their numbers.
#[derive(Clone, Copy)]
pub struct NumberedCell {
    pub kind: CellKind,
    pub first: u32,
    pub second: u32,
}

/// How two lanes come side by side.
#[derive(Clone, Copy)]
pub enum Travel {
    /// Where they meet first: a lane that is idle early comes all the way.
    Soonest,
    /// The same, but each passes a share of the lanes between. If one always came all the way, a
    /// chain of gates would stay where it began, and each operand would come from further away.
    Shared,
}

/// What is to be placed, and how. Gate g makes value `base + g`; the lanes begin as `start` says; the values
/// of `ports` are wanted at the end.
#[derive(Drop)]
pub struct Job {
    pub gates: List<NumberedCell>,
    pub base: u32,
    pub ports: List<u32>,
    pub start: List<Tag>,
    pub travel: Travel,
    pub ghost known: { AreKnown base gates },
    pub ghost few_ports: { length ports + 4 < 2 ^ 32 },
    pub ghost few: { base + length gates < 2 ^ 32 },
}
