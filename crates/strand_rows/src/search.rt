// Several numbers of rows are tried.

use crate::cells::lay_out;
use crate::sweep::{Plan, Sweep, longest};
use crate::tails::tails_of;
use lists::OutOfMemory;
use std::alloc::Global;
use strand_core::{Effort, Layout, StrandCircuit};

// More rows than a circuit needs.
const UNBOUNDED: i32 = 1 << 20;

// Of so many parts of the rows of the first layout, a part fewer are tried, and so on, so often.
const PARTS: i32 = 20;

const FEWER: i32 = 9;

// After so many nodes that were looked at, no fewer rows are tried.
const MOST_WORK: u64 = 10_000_000;

// In a crowd strands keep so much room at first. After fewer nodes than these that were looked at, less room is tried.
const ROOM: i32 = 2;

const MOST_CLOSER: u64 = 80_000_000;

// Columns for each column of the longest way through a circuit, and besides, after which a search is given up.
const MOST_COLUMNS: u32 = 6;

const MORE_COLUMNS: u32 = 1000;

// The search for the layout with the least cost, and how many nodes have been looked at for it. It has found nothing if
// the cost is the greatest number.
#[derive(Drop)]
struct Search {
    best: Layout,
    cost: u64,
    work: u64,
}

// About the cells of the box with the registers, times the period.
fn cost(width: u32, height: u32, registers: usize) -> u64 {
    let registers = u32::try_from(registers).unwrap_or(0) as u64;
    let wide = registers.saturating_mul(4).saturating_add(width as u64);
    let high = registers.saturating_mul(2).saturating_add(height as u64);
    let period = wide.saturating_mul(2).saturating_add(high);
    wide.saturating_mul(high).saturating_mul(period)
}

// Places all tiles, and fills the layout. Returns whether it could.
fn fill(
    sweep: &mut Sweep,
    circuit: &StrandCircuit,
    tails: &[u32],
    layout: &mut Layout,
) -> Result<bool, OutOfMemory> {
    let columns = longest(tails)
        .saturating_mul(MOST_COLUMNS)
        .saturating_add(MORE_COLUMNS);
    if !sweep.run(circuit, tails, columns)? {
        return Ok(false);
    }
    lay_out(sweep, circuit, layout)?;
    Ok(true)
}

impl Search {
    // Takes a layout if it costs less than the best one. Returns whether it costs at most an eighth more.
    fn offer(&mut self, layout: Layout, registers: usize) -> bool {
        let cost = cost(layout.width, layout.height, registers);
        if cost < self.cost {
            self.best = layout;
            self.cost = cost;
        }
        cost <= self.cost.saturating_add(self.cost / 8)
    }

    // Places all tiles by a plan, and fills the layout. Returns whether it could.
    fn place(
        &mut self,
        alloc: Global,
        circuit: &StrandCircuit,
        tails: &[u32],
        plan: Plan,
        layout: &mut Layout,
    ) -> Result<bool, OutOfMemory> {
        let mut sweep = Sweep::new(alloc, tails, plan);
        let filled = fill(&mut sweep, circuit, tails, layout);
        self.work = self.work.saturating_add(sweep.plane.work);
        filled
    }

    // Tries a plan. Returns whether plans with fewer rows are worth a try.
    fn try_plan(
        &mut self,
        alloc: Global,
        circuit: &StrandCircuit,
        tails: &[u32],
        plan: Plan,
    ) -> Result<bool, OutOfMemory> {
        let mut layout = empty_layout(alloc);
        if !self.place(alloc, circuit, tails, plan, &mut layout)? {
            return Ok(false);
        }
        Ok(self.offer(layout, circuit.registers.len()) && self.work < MOST_WORK)
    }

    // Tries fewer and fewer rows, where forks come late if the columns are told.
    fn try_fewer(
        &mut self,
        alloc: Global,
        circuit: &StrandCircuit,
        tails: &[u32],
        rows: i32,
        columns: Option<u32>,
    ) -> Result<(), OutOfMemory> {
        for fewer in 0..FEWER {
            let most = rows.saturating_sub(rows.saturating_mul(fewer) / PARTS);
            let plan = Plan {
                most,
                columns,
                room: ROOM,
            };
            if !self.try_plan(alloc, circuit, tails, plan)? {
                break;
            }
        }
        Ok(())
    }

    // Tries less and less room, if that does not take too long.
    fn try_closer(
        &mut self,
        alloc: Global,
        circuit: &StrandCircuit,
        tails: &[u32],
        first: Plan,
    ) -> Result<(), OutOfMemory> {
        for room in (0..ROOM).rev() {
            if self.work < MOST_CLOSER {
                self.try_plan(alloc, circuit, tails, Plan { room, ..first })?;
            }
        }
        Ok(())
    }

    // Tries plans.
    fn run(
        &mut self,
        alloc: Global,
        circuit: &StrandCircuit,
        tails: &[u32],
        effort: Effort,
    ) -> Result<(), OutOfMemory> {
        let first = Plan {
            most: UNBOUNDED,
            columns: None,
            room: ROOM,
        };
        let is_small = self.try_plan(alloc, circuit, tails, first)?;
        if matches!(effort, Effort::Brief) {
            return Ok(());
        }
        if !is_small {
            return self.try_closer(alloc, circuit, tails, first);
        }
        let columns = Some(self.best.width);
        let rows = i32::try_from(self.best.height).unwrap_or(UNBOUNDED);
        self.try_fewer(alloc, circuit, tails, rows, None)?;
        self.try_fewer(alloc, circuit, tails, rows, columns)
    }
}

fn empty_layout(alloc: Global) -> Layout {
    Layout {
        width: 0,
        height: 0,
        tiles: Vec::new(alloc),
        path: Vec::new(alloc),
        starts: Vec::new(alloc),
    }
}

/// Returns columns and rows for the tiles and strands of a circuit. The rows of inputs and outputs are free. If no place
/// is found for some tile, nothing is drawn.
pub fn laid_out(
    alloc: Global,
    circuit: &StrandCircuit,
    effort: Effort,
) -> Result<Layout, OutOfMemory> {
    let tails = tails_of(alloc, circuit)?;
    let mut search = Search {
        best: empty_layout(alloc),
        cost: u64::MAX,
        work: 0,
    };
    search.run(alloc, circuit, &tails, effort)?;
    Ok(search.best)
}
