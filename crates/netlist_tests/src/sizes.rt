// How many tiles the plans of small circuits take.
ghost use Rattle.cell_plans.specs.PlanOf.{IsPlannable};

use crate::listed::{Asked, expect_list};
use crate::pages::Page;
use crate::written::Written;
use cell_core::{Cell, CellList, Src};
use cell_plans::plan_of;
use lane_core::Plan;
use std::alloc::Global;

// A list, and how many tiles its smallest plan takes in four orders of its cells, without climbing.
struct Case {
    name: &'static str,
    plain: u64,
    list: Written<'static>,
}

const CASES: &[Case] = &[
    Case {
        name: "an OR",
        plain: 2,
        list: Written {
            inputs: 2,
            cells: &[Cell::Or(Src::Input(0), Src::Input(1))],
            outs: &[Src::Cell(0)],
            latches: &[],
            starts: &[],
            nets: &[Src::Input(0), Src::Input(1), Src::Cell(0)],
        },
    },
    Case {
        name: "one and not the other",
        plain: 2,
        list: Written {
            inputs: 2,
            cells: &[Cell::AndNot(Src::Input(0), Src::Input(1))],
            outs: &[Src::Cell(0)],
            latches: &[],
            starts: &[],
            nets: &[Src::Input(0), Src::Input(1), Src::Cell(0)],
        },
    },
    Case {
        name: "nothing",
        plain: 0,
        list: Written {
            inputs: 0,
            cells: &[],
            outs: &[],
            latches: &[],
            starts: &[],
            nets: &[],
        },
    },
    Case {
        name: "constant 0",
        plain: 1,
        list: Written {
            inputs: 0,
            cells: &[],
            outs: &[Src::Zero],
            latches: &[],
            starts: &[],
            nets: &[Src::Zero],
        },
    },
    Case {
        name: "a crossing",
        plain: 2,
        list: Written {
            inputs: 2,
            cells: &[],
            outs: &[Src::Input(1), Src::Input(0)],
            latches: &[],
            starts: &[],
            nets: &[Src::Input(0), Src::Input(1), Src::Input(1), Src::Input(0)],
        },
    },
    Case {
        name: "five copies",
        plain: 55,
        list: Written {
            inputs: 1,
            cells: &[],
            outs: &[
                Src::Input(0),
                Src::Input(0),
                Src::Input(0),
                Src::Input(0),
                Src::Input(0),
            ],
            latches: &[],
            starts: &[],
            nets: &[
                Src::Input(0),
                Src::Input(0),
                Src::Input(0),
                Src::Input(0),
                Src::Input(0),
                Src::Input(0),
            ],
        },
    },
    Case {
        name: "a toggle",
        plain: 66,
        list: Written {
            inputs: 0,
            cells: &[Cell::AndNot(Src::One, Src::Latch(0))],
            outs: &[Src::Latch(0)],
            latches: &[Src::Cell(0)],
            starts: &[false],
            nets: &[Src::Latch(0), Src::Cell(0)],
        },
    },
    Case {
        name: "a counter of two bits",
        plain: 171,
        list: Written {
            inputs: 0,
            cells: &[
                Cell::AndNot(Src::One, Src::Latch(0)),
                Cell::Xor(Src::Latch(0), Src::Latch(1)),
            ],
            outs: &[Src::Latch(0), Src::Latch(1)],
            latches: &[Src::Cell(0), Src::Cell(1)],
            starts: &[false, false],
            nets: &[Src::Latch(0), Src::Latch(1), Src::Cell(0), Src::Cell(1)],
        },
    },
    Case {
        name: "an adder of two bits",
        plain: 120,
        list: Written {
            inputs: 5,
            cells: &[
                Cell::Xor(Src::Input(0), Src::Input(2)),
                Cell::AndNot(Src::Input(0), Src::Cell(0)),
                Cell::Xor(Src::Cell(0), Src::Input(4)),
                Cell::AndNot(Src::Input(4), Src::Cell(2)),
                Cell::Or(Src::Cell(1), Src::Cell(3)),
                Cell::Xor(Src::Input(1), Src::Input(3)),
                Cell::AndNot(Src::Input(1), Src::Cell(5)),
                Cell::Xor(Src::Cell(5), Src::Cell(4)),
                Cell::AndNot(Src::Cell(4), Src::Cell(7)),
                Cell::Or(Src::Cell(6), Src::Cell(8)),
            ],
            outs: &[Src::Cell(2), Src::Cell(7), Src::Cell(9)],
            latches: &[],
            starts: &[],
            nets: &[
                Src::Input(0),
                Src::Input(1),
                Src::Input(2),
                Src::Input(3),
                Src::Input(4),
                Src::Cell(4),
                Src::Cell(2),
                Src::Cell(7),
                Src::Cell(9),
            ],
        },
    },
];

/// Returns how many tiles a plan takes, those of its loops among them.
pub fn tiles_of(plan: &Plan) -> u64 {
    let loops = u64::from(plan.latches);
    let columns = (plan.columns.len() as u64).saturating_add(loops.saturating_mul(2));
    columns.saturating_mul(u64::from(plan.lanes).saturating_add(loops))
}

/// Returns how many tiles the plan of a list takes, if memory is enough.
pub fn tiles_of_list(alloc: Global, list: &CellList) -> Option<u64>
    requires { IsPlannable list.now }
{
    match plan_of(alloc, list) {
        Ok(plan) => {
            let tiles = tiles_of(&plan);
            drop(plan);
            Some(tiles)
        }
        Err(_) => None,
    }
}

/// Notes it if the plan of a small circuit takes more tiles than it should.
pub fn expect_sizes(page: &mut Page) {
    for case in CASES {
        page.push(case.name.as_bytes());
        expect_list(page, &case.list, Asked::Tiles(case.plain));
    }
}
