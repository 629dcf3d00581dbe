// Plans that tests take by name.
use crate::plans::Written;
use lane_core::{Instr, NetPlace, Start};

// An Or on two lanes: net 0 and net 1 are the inputs, net 2 is the output.
const OR: Written<'static> = Written {
    lanes: 2,
    columns: &[&[Instr::Or(0)]],
    latches: 0,
    starts: &[],
    ins: &[0, 1],
    outs: &[0],
    nets: &[
        NetPlace {
            lane: 0,
            after: None,
        },
        NetPlace {
            lane: 1,
            after: None,
        },
        NetPlace {
            lane: 0,
            after: Some(0),
        },
    ],
    tape: &[],
};

// Three loops without instructions or ports. The first starts with 1.
const THREE_LOOPS: Written<'static> = Written {
    lanes: 3,
    columns: &[&[], &[], &[]],
    latches: 3,
    starts: &[Start { x: 96, y: 8 }],
    ins: &[],
    outs: &[],
    nets: &[],
    tape: &[],
};

// Two lanes and a loop that starts with 1. The Or takes the loop's bit, and the Fork gives it to
// the output and back to the loop.
const LOOP: Written<'static> = Written {
    lanes: 2,
    columns: &[&[Instr::Or(0)], &[Instr::Fork(0)]],
    latches: 1,
    starts: &[Start { x: 32, y: 24 }],
    ins: &[0],
    outs: &[0],
    nets: &[],
    tape: &[],
};

// A circuit of five lanes whose columns contain every instruction, with an input on every other
// lane and an output on every lane.
const CIRCUIT: Written<'static> = Written {
    lanes: 5,
    columns: &[
        &[Instr::Fork(0), Instr::Fork(2)],
        &[Instr::Swap(1), Instr::AndNot(3)],
        &[Instr::Xor(0), Instr::Or(2)],
        &[Instr::Swap(1)],
    ],
    latches: 0,
    starts: &[],
    ins: &[0, 2, 4],
    outs: &[0, 1, 2, 3, 4],
    nets: &[],
    tape: &[],
};

// Two lanes, two columns and a loop.
const FORK_LOOP: Written<'static> = Written {
    lanes: 2,
    columns: &[&[Instr::Fork(0)], &[Instr::Or(0)]],
    latches: 1,
    starts: &[Start { x: 32, y: 24 }],
    ins: &[0],
    outs: &[0],
    nets: &[],
    tape: &[],
};

// Three columns without instructions, and two loops.
const LONG_LOOPS: Written<'static> = Written {
    lanes: 5,
    columns: &[&[], &[], &[]],
    latches: 2,
    starts: &[Start { x: 64, y: 72 }],
    ins: &[],
    outs: &[2],
    nets: &[],
    tape: &[],
};

// A Fork, and an Xor in the next column.
const FORK_AND_XOR: Written<'static> = Written {
    lanes: 3,
    columns: &[&[Instr::Fork(0)], &[Instr::Xor(1)]],
    latches: 0,
    starts: &[],
    ins: &[],
    outs: &[],
    nets: &[],
    tape: &[],
};

/// A name for each sample that tests reach through `written`.
#[derive(Clone, Copy)]
pub enum Sample {
    Or,
    Circuit,
    Loop,
    ForkLoop,
    ThreeLoops,
    LongLoops,
    ForkAndXor,
}

/// Returns how the plan of a sample is written down. A test that names the constant instead takes
/// longer to prove.
pub fn written(sample: Sample) -> Written<'static> {
    match sample {
        Sample::Or => OR,
        Sample::Circuit => CIRCUIT,
        Sample::Loop => LOOP,
        Sample::ForkLoop => FORK_LOOP,
        Sample::ThreeLoops => THREE_LOOPS,
        Sample::LongLoops => LONG_LOOPS,
        Sample::ForkAndXor => FORK_AND_XOR,
    }
}
