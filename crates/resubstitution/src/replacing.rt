// Replacements, one cell after another.
use crate::cuts::Cut;
use crate::divisors::{Divisor, add_divisors, shuffle};
use crate::matching::{Sorted, same};
use crate::network::{Network, Role, operands};
use crate::windows::Window;
use cell_core::{Cell, CellError, CellList, Draws, Src};
use std::alloc::Global;

/// A replacement of the cell `cell`: `cells` are added at the end of the list, and then the source
/// `by`, one of these cells or another, has the bit of `cell` and may be read in its place. The
/// tables over `leaves`, which are at most six, of the cells of `cone` show it; each cell of the
/// cone stands after those that it reads.
#[derive(Drop)]
pub struct Replacement {
    pub cells: Vec<Cell>,
    pub cell: u32,
    pub by: Src,
    pub leaves: Vec<Src>,
    pub cone: Vec<u32>,
}

/// Which replacements a round takes.
#[derive(Clone, Copy)]
pub enum Round {
    /// Those that make the cells fewer.
    Fewer,
    /// For one cell in four, by chance, also those that keep the number of cells: they open the way
    /// for others. Each other cell is passed over unless some cell goes with it.
    Wander,
}

/// How many new cells a replacement may have.
#[derive(Clone, Copy)]
enum Most {
    None,
    One,
    Two,
}

// The visits after which a round ends: of cells that go with another, of readers, and of pairs of
// divisors. The cell at which they run out may take more.
const MOST_VISITS: usize = 1 << 24;

// A search in one round.
#[derive(Drop)]
struct Search {
    network: Network,
    window: Window,
    is_wandering: bool,
    draws: Draws,
    found: Vec<Replacement>,
    visits_left: usize,
    // whether memory was refused: then something is missing here
    is_refused: bool,
}

// A cell that may be replaced.
#[derive(Clone, Copy)]
struct Target {
    number: u32,
    cell: Cell,
    // Whether it may also be replaced by as many cells as go.
    is_lucky: bool,
}

// At most two new cells, and the source that is read in place of a cell.
#[derive(Clone, Copy)]
struct Made {
    first: Option<Cell>,
    second: Option<Cell>,
    by: Src,
}

// How many cells may come if so many go.
fn most_new(gone: usize, equal: bool) -> Most {
    let fewer = if equal { gone } else { gone.saturating_sub(1) };
    match fewer {
        0 => Most::None,
        1 => Most::One,
        _ => Most::Two,
    }
}

// Cells that have the table, few enough, of which the first gets this number.
fn new_cells(sorted: &Sorted, own: Cell, most: Most, number: u32) -> Option<Made> {
    if let Some(cell) = sorted.one_cell(own) {
        return Some(Made {
            first: Some(cell),
            second: None,
            by: Src::Cell(number),
        });
    }
    match most {
        Most::None | Most::One => return None,
        Most::Two => {}
    }
    let (first, outer) = sorted.two_cells()?;
    Some(Made {
        first: Some(first),
        second: Some(outer.cell(Src::Cell(number))),
        by: Src::Cell(number.saturating_add(1)),
    })
}

// What has the table, with few enough new cells, of which the first gets this number. Notes if memory is refused.
fn made_of(
    alloc: Global,
    divisors: &[Divisor],
    word: u64,
    own: Cell,
    most: Most,
    number: u32,
    is_refused: &mut bool,
) -> Option<Made> {
    if let Some(by) = same(divisors, word) {
        return Some(Made {
            first: None,
            second: None,
            by,
        });
    }
    match most {
        Most::None => None,
        Most::One | Most::Two => {
            let sorted = Sorted::of(alloc, divisors, word);
            *is_refused |= sorted.is_refused;
            new_cells(&sorted, own, most, number)
        }
    }
}

// Adds the number of a source that is a cell. Returns whether memory was refused.
fn push_cell(cells: &mut Vec<u32>, src: Src) -> bool {
    match src {
        Src::Cell(i) => cells.push(i).is_err(),
        Src::Input(_) | Src::Latch(_) | Src::One | Src::Zero => false,
    }
}

// Adds the cells that a cell reads, if there is one. Returns whether memory was refused.
fn push_operands(cells: &mut Vec<u32>, cell: Option<Cell>) -> bool {
    let Some(cell) = cell else {
        return false;
    };
    let (a, b) = operands(cell);
    push_cell(cells, a) | push_cell(cells, b)
}

// Adds the cells that a cell reads, and those that what comes in its place reads. Returns whether memory was refused.
fn push_needed(needed: &mut Vec<u32>, own: Cell, made: Made) -> bool {
    push_operands(needed, Some(own))
        | push_cell(needed, made.by)
        | push_operands(needed, made.first)
        | push_operands(needed, made.second)
}

impl Search {
    fn begin(
        alloc: Global,
        list: &CellList,
        kept: &[Src],
        round: Round,
        draws: Draws,
    ) -> Result<Search, CellError> {
        let window = Window::new(alloc, list.cells.len())?;
        Ok(Search {
            network: Network::of(alloc, list, kept),
            window,
            is_wandering: match round {
                Round::Wander => true,
                Round::Fewer => false,
            },
            draws,
            found: Vec::new(alloc),
            visits_left: MOST_VISITS,
            is_refused: false,
        })
    }

    fn spend(&mut self, visits: usize) {
        self.visits_left = self.visits_left.saturating_sub(visits);
    }

    // A cell, if it may be replaced.
    fn target(&mut self, number: u32) -> Option<Target> {
        let Some((cell, Role::Free)) = self.network.role(number) else {
            return None;
        };
        Some(Target {
            number,
            cell,
            is_lucky: self.is_wandering && self.draws.below(4) == 0,
        })
    }

    // What may be read in place of a cell, over its cut.
    fn made(&mut self, alloc: Global, target: Target, cut: &Cut, gone: &[u32]) -> Option<Made> {
        let word = self.window.own?;
        let mut divisors = Vec::new(alloc);
        let has_one = self.network.has_one;
        self.is_refused |= add_divisors(&mut divisors, cut, &self.window, gone, has_one);
        if target.is_lucky {
            shuffle(&mut divisors, &mut self.draws);
        }
        let most = most_new(gone.len(), target.is_lucky);
        self.spend(divisors.len().saturating_mul(divisors.len()));
        let number = self.network.next_number();
        let is_refused = &mut self.is_refused;
        made_of(
            alloc,
            &divisors,
            word,
            target.cell,
            most,
            number,
            is_refused,
        )
    }

    // Adds the known cells that are needed to the cone, the last first, and what they read to what
    // is needed. Returns whether memory was refused.
    fn push_cone(&self, cone: &mut Vec<u32>, needed: &mut Vec<u32>) -> bool {
        let mut is_refused = false;
        for place in (0..self.window.order.len()).rev() {
            let known = self.window.order[place];
            if needed.contains(&known) {
                is_refused |= cone.push(known).is_err();
                is_refused |= push_operands(needed, self.network.cell(known));
            }
        }
        is_refused
    }

    // Fills the cone with the cells whose tables show that a source has the bit of a cell; this
    // cell comes last. Returns whether memory was refused.
    fn fill_cone(&self, alloc: Global, cone: &mut Vec<u32>, target: Target, made: Made) -> bool {
        let mut needed = Vec::new(alloc);
        let is_refused = push_needed(&mut needed, target.cell, made)
            | self.push_cone(cone, &mut needed);
        cone.reverse();
        is_refused | cone.push(target.number).is_err()
    }

    // Adds a new cell at the end of the network.
    fn add_new(&mut self, alloc: Global, new: &mut Replacement, made: Option<Cell>) {
        if let Some(cell) = made {
            let number = self.network.add(alloc, cell);
            self.is_refused |= new.cells.push(cell).is_err() | new.cone.push(number).is_err();
            self.window.add_cell();
        }
    }

    // Replaces a cell.
    fn take(&mut self, alloc: Global, target: Target, leaves: &[Src], made: Made) {
        let mut new = Replacement {
            cells: Vec::new(alloc),
            cell: target.number,
            by: made.by,
            leaves: Vec::new(alloc),
            cone: Vec::new(alloc),
        };
        self.is_refused |= new.leaves.extend_from_slice(leaves).is_err()
            | self.fill_cone(alloc, &mut new.cone, target, made);
        self.add_new(alloc, &mut new, made.first);
        self.add_new(alloc, &mut new, made.second);
        self.network.replace(alloc, target.number, made.by);
        self.is_refused |= self.found.push(new).is_err();
    }

    // Replaces a cell with which these cells go, if enough go and something is found for it.
    fn replace_with(&mut self, alloc: Global, target: Target, gone: &[u32]) {
        self.spend(gone.len());
        if self.is_wandering && !target.is_lucky && gone.len() < 2 {
            return;
        }
        let cut = Cut::of(alloc, &self.network, target.number);
        self.is_refused |= cut.is_refused;
        self.window.fill(&self.network, &cut, target.number);
        self.spend(self.window.visits);
        if let Some(made) = self.made(alloc, target, &cut, gone) {
            self.take(alloc, target, &cut.leaves, made);
        }
        self.window.clear();
    }

    // Replaces a cell that may be replaced, if something is found for it.
    fn replace_cell(&mut self, alloc: Global, number: u32) {
        if let Some(target) = self.target(number) {
            let gone = self.network.cone_of(alloc, number);
            self.replace_with(alloc, target, &gone);
        }
    }

    // Replaces the first so many cells, while visits are left. Returns whether memory was refused.
    fn replace_all(&mut self, alloc: Global, count: u32) -> bool {
        for number in 0..count {
            if self.visits_left == 0 || self.is_refused {
                break;
            }
            self.replace_cell(alloc, number);
        }
        self.is_refused | self.network.is_refused | self.window.is_refused
    }
}

/// Finds the replacements of one round over the cells of a list, in the order in which they are to
/// be made. The kept sources are not replaced. A round ends early when it has made 16.8 million
/// visits, of cells or of pairs of divisors.
pub fn replacements(
    alloc: Global,
    list: &CellList,
    kept: &[Src],
    round: Round,
    draws: &mut Draws,
) -> Result<Vec<Replacement>, CellError> {
    let count = u32::try_from(list.cells.len()).unwrap_or(0);
    let mut search = Search::begin(alloc, list, kept, round, *draws)?;
    let is_refused = search.replace_all(alloc, count);
    *draws = search.draws;
    if is_refused {
        Err(CellError::NoMemory)
    } else {
        Ok(search.found)
    }
}
