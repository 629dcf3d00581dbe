// What each instruction does, and columns.
ghost use Rattle.lane_core.specs.Plans.{IsAdmissible};

use crate::pages::Page;
use crate::plans::column_of;
use lane_core::{Column, Instr, Plan, run_columns, run_instrs};
use std::alloc::Global;

// An instruction, the bits that it finds on its upper and its lower lane, and the bits that it
// leaves there.
const ANSWERS: &[(Instr, (bool, bool), (bool, bool))] = &[
    (Instr::Swap(1), (false, false), (false, false)),
    (Instr::Swap(1), (false, true), (true, false)),
    (Instr::Swap(1), (true, false), (false, true)),
    (Instr::Swap(1), (true, true), (true, true)),
    (Instr::Fork(1), (false, false), (false, false)),
    (Instr::Fork(1), (false, true), (false, false)),
    (Instr::Fork(1), (true, false), (true, true)),
    (Instr::Fork(1), (true, true), (true, true)),
    (Instr::Xor(1), (false, false), (false, false)),
    (Instr::Xor(1), (false, true), (true, false)),
    (Instr::Xor(1), (true, false), (true, false)),
    (Instr::Xor(1), (true, true), (false, false)),
    (Instr::Or(1), (false, false), (false, false)),
    (Instr::Or(1), (false, true), (true, false)),
    (Instr::Or(1), (true, false), (true, false)),
    (Instr::Or(1), (true, true), (true, false)),
    (Instr::AndNot(1), (false, false), (false, false)),
    (Instr::AndNot(1), (false, true), (false, false)),
    (Instr::AndNot(1), (true, false), (true, false)),
    (Instr::AndNot(1), (true, true), (false, false)),
];

// Whether an instruction on the middle two of four lanes leaves these bits there, and the lanes beside them as they
// are.
fn is_answer(instr: Instr, found: (bool, bool), left: (bool, bool)) -> bool {
    if instr.lane() != 1 {
        return false;
    }
    let mut bits = [true, found.0, found.1, true];
    run_instrs(&[instr], &mut bits);
    bits == [true, left.0, left.1, true]
}

fn expect_answers(page: &mut Page) {
    for (turn, (instr, found, left)) in ANSWERS.iter().enumerate() {
        page.expect_turn(b"an instruction", turn, is_answer(*instr, *found, *left));
    }
}

/// Returns whether instructions, and the columns of a plan of a Fork and an Xor on three lanes, are done in order.
pub fn are_in_order(plan: &Plan) -> bool
    requires { IsAdmissible plan.now }
{
    if plan.lanes != 3 {
        return false;
    }
    let mut by_instrs = [true, false, true];
    run_instrs(&[Instr::Fork(0), Instr::Xor(1)], &mut by_instrs);
    let mut by_columns = [true, false, true];
    run_columns(plan.columns.as_slice(), &mut by_columns);
    by_instrs == [true, false, false] && by_columns == [true, false, false]
}

// Lanes, and the instruction that a column of an Or and a Swap has on each.
const FOUND: &[(u32, Option<Instr>)] = &[
    (0, None),
    (1, Some(Instr::Or(1))),
    (2, Some(Instr::Or(1))),
    (3, None),
    (4, Some(Instr::Swap(4))),
    (5, Some(Instr::Swap(4))),
    (6, None),
];

// Whether a column has these instructions on its lanes.
fn is_searched(column: &Column) -> bool {
    for (lane, instr) in FOUND {
        if column.instr_on(*lane) != *instr {
            return false;
        }
    }
    true
}

fn are_found(alloc: Global) -> bool {
    match column_of(alloc, &[Instr::Or(1), Instr::Swap(4)]) {
        Some(column) => {
            let is_searched = is_searched(&column);
            drop(column);
            is_searched
        }
        None => false,
    }
}

/// Notes it unless instructions change two lanes, and are found by lane.
pub fn expect_lanes(page: &mut Page) {
    expect_answers(page);
    page.expect_holds(b"the lanes of a column", are_found(page.alloc()));
}
