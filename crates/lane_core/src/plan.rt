// Programs, whose instructions stand in a line, and plans, whose instructions stand in columns.
ghost use Rattle.std.specs.Prelude.{◌-◌, ◌≤◌, length, All};
ghost use Rattle.lane_core.specs.Instrs.{IsOnLanes};
ghost use Rattle.lane_core.specs.Places.{AreDistinctBelow, IsPlaceWithin};

use crate::{Column, Instr, Starts};
use lists::List;

/// The place where the bit of a net is found: a lane, at the start (`None`) or after the
/// instruction (of a program) or the column (of a plan) of this number.
#[derive(Clone, Copy)]
pub struct NetPlace {
    pub lane: u32,
    pub after: Option<u64>,
}

/// A program: instructions on `lanes` lanes, in the order in which they are done. There is a loop
/// for each of `latches`, true if it starts with 1; loop s of k enters on lane `lanes - k + s` and
/// leaves on lane `lanes - 1 - s`. The inputs are on the lanes `ins`, and the outputs are found on
/// the lanes `outs`.
#[derive(Drop)]
pub struct Program {
    pub lanes: u32,
    pub instrs: List<Instr>,
    pub ins: List<u32>,
    pub latches: List<bool>,
    pub outs: List<u32>,
    pub nets: List<NetPlace>,
    pub ghost loops_fit: { length latches ≤ lanes },
    pub ghost instrs_fit: { All (IsOnLanes lanes) instrs },
    pub ghost ins_fit: { AreDistinctBelow (lanes - length latches) ins },
    pub ghost outs_fit: { AreDistinctBelow (lanes - length latches) outs },
    pub ghost nets_fit: { All (IsPlaceWithin lanes (length instrs)) nets },
}

/// A plan: columns of instructions, with the ports and nets of a program. `latches` is the number
/// of loops, and `starts` names the edges that are lit at generation 0. `tape` has the bits that
/// run in by themselves: one list for each input, with a bit for each cycle, or no list if no bits
/// run in.
#[derive(Drop)]
pub struct Plan {
    pub lanes: u32,
    pub columns: List<Column>,
    pub latches: u32,
    pub starts: Starts,
    pub ins: List<u32>,
    pub outs: List<u32>,
    pub nets: List<NetPlace>,
    pub tape: List<List<bool>>,
}
