// The rules of plans: their lanes, ports, starts and tapes.
use crate::pages::Page;
use crate::plans::{Written, plan_of};
use crate::samples::{Sample, written};
use lane_core::{NetPlace, Start};
use macro_grid::admissible;
use std::alloc::Global;

// A change to a sample. `Ports` gives the OR other lanes, loops, inputs and outputs, and takes its
// nets away; `Nets`, `Tape` and `OrStart` give it nets, a tape or starts; `LoopStart` gives the loop
// other starts.
enum Change {
    Ports(u32, u32, &'static [u32], &'static [u32]),
    Nets(&'static [NetPlace]),
    Tape(&'static [&'static [u8]]),
    OrStart(&'static [Start]),
    LoopStart(&'static [Start]),
}

// Changes, and whether the changed plan is admissible.
const RULES: &[(Change, bool)] = &[
    (Change::Ports(2, 0, &[0, 1], &[0]), true),
    (Change::Ports(3, 0, &[0, 2], &[1]), true),
    (Change::Ports(1, 0, &[0], &[0]), false),
    (Change::Ports(0, 0, &[], &[]), false),
    (Change::Ports(2, 1, &[0], &[0]), true),
    (Change::Ports(2, 1, &[1], &[0]), false),
    (Change::Ports(2, 0, &[1, 1], &[0]), false),
    (Change::Ports(2, 0, &[0, 1], &[2]), false),
    (
        Change::Ports(65_537, 0, &[0, 65_536], &[65_536, 65_535]),
        true,
    ),
    (Change::Ports(65_537, 0, &[0, 65_536, 65_536], &[0]), false),
    (
        Change::Ports(65_537, 0, &[0], &[65_535, 0, 65_536, 65_535]),
        false,
    ),
    (
        Change::Ports(u32::MAX, 0, &[u32::MAX - 1, 0], &[u32::MAX - 1]),
        true,
    ),
    (
        Change::Ports(u32::MAX, 0, &[u32::MAX - 1, 0, u32::MAX - 1], &[]),
        false,
    ),
    (Change::Ports(u32::MAX, 0, &[u32::MAX], &[]), false),
    // more loops than columns
    (Change::Ports(2, 2, &[], &[]), false),
    // nets outside the lanes, and after the last column
    (
        Change::Nets(&[NetPlace {
            lane: 2,
            after: None,
        }]),
        false,
    ),
    (
        Change::Nets(&[NetPlace {
            lane: 1,
            after: Some(1),
        }]),
        false,
    ),
    // a start names an edge by its entry cell, or by its exit cell if nothing is entered there
    (Change::LoopStart(&[Start { x: 32, y: 24 }]), true),
    (Change::LoopStart(&[Start { x: 31, y: 24 }]), false),
    (Change::LoopStart(&[Start { x: 33, y: 24 }]), false),
    (Change::LoopStart(&[Start { x: 16, y: 31 }]), true),
    (Change::LoopStart(&[Start { x: 16, y: 32 }]), false),
    (Change::LoopStart(&[Start { x: 95, y: 40 }]), true),
    (Change::LoopStart(&[Start { x: 96, y: 40 }]), false),
    (Change::LoopStart(&[Start { x: 128, y: 8 }]), false),
    (Change::OrStart(&[Start { x: 31, y: 24 }]), true),
    (Change::OrStart(&[Start { x: 32, y: 24 }]), false),
    // a tape has no lists, or one for each input, all of one length and not empty
    (Change::Tape(&[]), true),
    (Change::Tape(&[b"0", b"1"]), true),
    (Change::Tape(&[b"01", b"1"]), false),
    (Change::Tape(&[b"", b""]), false),
    (Change::Tape(&[b"01"]), false),
    (Change::Tape(&[b"0", b"1", b"0"]), false),
];

fn changed(change: &Change) -> Written<'static> {
    let mut plan = written(match change {
        Change::LoopStart(_) => Sample::Loop,
        _ => Sample::Or,
    });
    match change {
        Change::Ports(lanes, latches, ins, outs) => {
            plan.lanes = *lanes;
            plan.latches = *latches;
            plan.ins = *ins;
            plan.outs = *outs;
            plan.nets = &[];
        }
        Change::Nets(nets) => plan.nets = *nets,
        Change::Tape(tape) => return Written { tape, ..plan },
        Change::OrStart(starts) | Change::LoopStart(starts) => plan.starts = *starts,
    }
    plan
}

fn is_rule(alloc: Global, change: &Change, want: bool) -> bool {
    match plan_of(alloc, &changed(change)) {
        Some(plan) => {
            let is_kept = admissible(&plan) == want;
            drop(plan);
            is_kept
        }
        None => false,
    }
}

/// Notes each rule of plans that is not kept.
pub fn expect_rules(page: &mut Page) {
    for (number, (change, want)) in RULES.iter().enumerate() {
        let is_kept = is_rule(page.alloc(), change, *want);
        page.expect_turn(b"rules", number, is_kept);
    }
}
