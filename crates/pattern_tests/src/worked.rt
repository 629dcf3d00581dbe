// Small plans and their worked values.
ghost use Rattle.std.specs.Prelude.{IfSome};
ghost use Rattle.lane_core.specs.Plans.{IsAdmissible};
ghost use Rattle.plan_layout.specs.Starts.{HasStartEdges};

use crate::facts::{Fact, Port, expect_facts};
use crate::macro_steps::Course;
use crate::pages::Page;
use crate::plans::admitted;
use crate::samples::{Sample, written};
use crate::tapes::taped;
use lane_core::Plan;
use std::alloc::Global;
use ww_rule::State;

// Where a plan comes from: a sample, or a sample with these bits on its tape.
enum Origin {
    Written(Sample),
    Taped(Sample, &'static [&'static [u8]]),
}

struct Case {
    about: &'static str,
    plan: Origin,
    facts: &'static [Fact],
}

// The drawing of an OR gate and its output cell, row by row.
const OR_ROWS: &str = "\
.................................
.................................
.................................
.................................
.................................
.................................
.................................
.................................
CCCCC..................CCCCCCCCCC
.....C................C..........
......C..............C...........
.......C............C............
........C..........C.............
.........C.CC.....C..............
..........CC.C...C...............
...........CC.C.C................
...............C.................
...........CC.C..................
..........CC.C...................
.........C.CC....................
........C........................
.......C.........................
......C..........................
.....C...........................
CCCCC..........................C.
.................................
.................................
.................................
.................................
.................................
.................................
.................................";

const PLANS: &[Case] = &[
    Case {
        about: "an OR",
        plan: Origin::Written(Sample::Or),
        facts: &[
            Fact::Size(33, 32),
            Fact::Period(32),
            Fact::Latency(32),
            Fact::Ports(Port::In, &[(0, 8, 0), (0, 24, 0)]),
            Fact::Ports(Port::Out, &[(32, 8, 32)]),
            Fact::Ports(Port::Net, &[(0, 8, 0), (0, 24, 0), (31, 8, 31)]),
            Fact::Cells(&[
                (5, 8, State::Empty),
                (32, 8, State::Conductor),
                (31, 24, State::Conductor),
                (33, 8, State::Empty),
                (0, 40, State::Empty),
            ]),
            Fact::Rows(OR_ROWS),
            Fact::Slots("O*.\no..\n..."),
            Fact::Keeps(Course::StaysDark),
        ],
    },
    Case {
        about: "a circuit of five lanes",
        plan: Origin::Written(Sample::Circuit),
        facts: &[
            Fact::Size(129, 80),
            Fact::Ports(Port::In, &[(0, 8, 0), (0, 40, 0), (0, 72, 0)]),
            Fact::Ports(
                Port::Out,
                &[
                    (128, 8, 128),
                    (128, 24, 128),
                    (128, 40, 128),
                    (128, 56, 128),
                    (128, 72, 128),
                ],
            ),
        ],
    },
    Case {
        about: "a loop",
        plan: Origin::Written(Sample::Loop),
        facts: &[
            Fact::Size(129, 48),
            Fact::Period(256),
            Fact::Cells(&[
                (32, 24, State::Head),
                (31, 24, State::Tail),
                (32, 8, State::Conductor),
                (96, 8, State::Conductor),
                (95, 40, State::Conductor),
                (96, 9, State::Empty),
            ]),
        ],
    },
    Case {
        about: "a loop of which the Fork comes first",
        plan: Origin::Written(Sample::ForkLoop),
        facts: &[Fact::Slots(".FO*.\nrfo7.\nL<<J.\n.....")],
    },
    Case {
        about: "three loops alone",
        plan: Origin::Written(Sample::ThreeLoops),
        facts: &[
            Fact::Slots("r>>>>>>>7\n^r>>>>>7v\n^^r>>>7vv\n^^LW<WJvv\n^L<wWw<Jv\nL<<<w<<<J"),
            Fact::Keeps(Course::GoesRound),
        ],
    },
    Case {
        about: "instructions and columns are done in order",
        plan: Origin::Written(Sample::ForkAndXor),
        facts: &[Fact::InOrder],
    },
    Case {
        about: "loops lengthen the period",
        plan: Origin::Written(Sample::LongLoops),
        facts: &[
            Fact::Period(448),
            Fact::Latency(96),
            Fact::Ports(Port::Out, &[(160, 40, 96)]),
        ],
    },
    Case {
        about: "one tile of tape before the OR, with which the output moves",
        plan: Origin::Taped(Sample::Or, &[b"01", b"11"]),
        facts: &[
            Fact::Size(65, 32),
            Fact::Ports(Port::Out, &[(64, 8, 32)]),
            Fact::Cells(&[
                (0, 8, State::Head),
                (1, 8, State::Conductor),
                (31, 8, State::Conductor),
                (32, 8, State::Conductor),
                (64, 8, State::Conductor),
                (0, 24, State::Head),
                (30, 24, State::Conductor),
                (31, 24, State::Tail),
                (32, 24, State::Head),
                (33, 24, State::Conductor),
                (0, 7, State::Empty),
                (0, 9, State::Empty),
            ]),
        ],
    },
    Case {
        about: "one cycle is no tile of tape",
        plan: Origin::Taped(Sample::Or, &[b"1", b"0"]),
        facts: &[
            Fact::Size(33, 32),
            Fact::Cells(&[
                (0, 8, State::Head),
                (0, 24, State::Conductor),
                (32, 8, State::Conductor),
            ]),
        ],
    },
    Case {
        about: "eight tiles of tape before a body with one column of turns, which is drawn seven further east",
        plan: Origin::Taped(Sample::Loop, &[b"01"]),
        facts: &[
            Fact::Size(353, 48),
            Fact::Cells(&[
                (0, 8, State::Head),
                (1, 8, State::Conductor),
                (255, 8, State::Conductor),
                (256, 8, State::Conductor),
                (255, 24, State::Tail),
                (256, 24, State::Head),
                (223, 24, State::Empty),
                (0, 24, State::Empty),
                (320, 8, State::Conductor),
            ]),
            Fact::Keeps(Course::RunsIn),
        ],
    },
    Case {
        about: "sixteen tiles of tape",
        plan: Origin::Taped(Sample::Loop, &[b"110"]),
        facts: &[
            Fact::Size(609, 48),
            Fact::Cells(&[
                (0, 8, State::Conductor),
                (255, 8, State::Tail),
                (256, 8, State::Head),
                (257, 8, State::Conductor),
                (511, 8, State::Tail),
                (512, 8, State::Head),
                (511, 24, State::Tail),
                (512, 24, State::Head),
            ]),
        ],
    },
    Case {
        about: "no tile of tape, so no tail before the body",
        plan: Origin::Taped(Sample::Loop, &[b"1"]),
        facts: &[
            Fact::Size(129, 48),
            Fact::Cells(&[
                (31, 8, State::Empty),
                (32, 8, State::Head),
                (31, 24, State::Tail),
                (32, 24, State::Head),
            ]),
        ],
    },
    Case {
        about: "no input, so no tape",
        plan: Origin::Taped(Sample::ThreeLoops, &[]),
        facts: &[
            Fact::Size(289, 96),
            Fact::Cells(&[(96, 8, State::Head), (95, 8, State::Tail)]),
        ],
    },
];

fn made(alloc: Global, origin: &Origin) -> Option<Plan>
    ensures admissible { IfSome result IsAdmissible }
    ensures starts { IfSome result HasStartEdges }
{
    match origin {
        Origin::Written(sample) => admitted(alloc, &written(*sample)),
        Origin::Taped(sample, bits) => taped(alloc, &written(*sample), bits),
    }
}

fn expect_case(page: &mut Page, case: &Case) {
    match made(page.alloc(), &case.plan) {
        Some(plan) => {
            expect_facts(page, case.about.as_bytes(), &plan, case.facts);
            drop(plan);
        }
        None => page.cut(),
    }
}

/// Notes each fact that does not hold of its plan.
pub fn expect_worked(page: &mut Page) {
    for case in PLANS {
        expect_case(page, case);
    }
}
