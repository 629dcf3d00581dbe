// Plans of random lists of cells.

use crate::climbing::is_counted;
use crate::drawing::{Draw, draw_list};
use crate::pages::Page;
use crate::sizes::tiles_of_list;
use std::alloc::Global;

// How random lists are drawn: how many, from which state of the generator, and whether climbing is tried on them, or
// whether they have plans.
struct Run {
    lists: u32,
    draw: Draw,
    climbs: bool,
}

const RUNS: &[Run] = &[
    Run {
        lists: 60,
        draw: Draw { state: 1 },
        climbs: false,
    },
    Run {
        lists: 60,
        draw: Draw {
            state: 2_669_688_757,
        },
        climbs: false,
    },
    Run {
        lists: 20,
        draw: Draw { state: 7 },
        climbs: true,
    },
];

fn drawn_is_right(alloc: Global, climbs: bool, draw: &mut Draw) -> bool {
    match draw_list(alloc, draw) {
        Some(list) => {
            let is_right = if climbs {
                is_counted(alloc, &list)
            } else {
                tiles_of_list(alloc, &list).is_some()
            };
            drop(list);
            is_right
        }
        None => false,
    }
}

fn expect_run(page: &mut Page, run: &Run) {
    let mut draw = run.draw;
    for turn in 0..run.lists {
        page.push(if run.climbs {
            b"climbing, list "
        } else {
            b"list "
        });
        page.push_number(u64::from(turn));
        page.expect_holds(drawn_is_right(page.alloc(), run.climbs, &mut draw));
    }
}

/// Notes it unless random lists have plans, and climbing counts their tiles. Among the lists are some with constants as
/// operands, doubled sources, cells that nothing reads, unused latches and inputs, outputs of one source, and outputs
/// that are inputs, and lists with none of these.
pub fn expect_runs(page: &mut Page) {
    for run in RUNS {
        expect_run(page, run);
    }
}
