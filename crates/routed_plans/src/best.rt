// Which of a netlist's lists of cells gives the best drawing.

use crate::search::draw_list;
use cell_core::CellList;
use gate_library::Drawing;
use lists::OutOfMemory;
use std::alloc::Global;
use std::mem;
use strand_core::Effort;
use strand_drawings::Drawn;

// So many lists are drawn with the whole search at most, and one alone if it has more cells than these.
const MOST_WHOLE: usize = 3;

const MANY_CELLS: usize = 1_000;

// A list of more cells than these is huge.
const HUGE: usize = 2_000;

/// The best drawing so far, and the place of its list.
#[derive(Drop)]
pub struct Best {
    pub place: usize,
    pub drawn: Drawn,
}

// Of drawings whose periods are shorter than this, the one with the smallest box is best.
const SHORT_PERIOD: u32 = 48;

// What a drawing costs: its box times its period.
fn cost_of(drawing: &Drawing) -> u128 {
    let cells = u64::from(drawing.width) * u64::from(drawing.height);
    u128::from(cells) * u128::from(drawing.period.max(SHORT_PERIOD))
}

// Whether a drawing costs less than the best one so far.
fn is_better(drawing: &Drawing, best: &Option<Best>) -> bool {
    match best {
        Some(first) => cost_of(drawing) < cost_of(&first.drawn.drawing),
        None => true,
    }
}

// Keeps a drawing if it is better than the best one so far.
fn keep_better(best: &mut Option<Best>, other: Best) {
    if is_better(&other.drawn.drawing, best) {
        drop(mem::replace(best, Some(other)));
    } else {
        drop(other);
    }
}

// Draws the list at a place, and keeps the drawing if it is the best so far. Returns what it costs.
fn draw_at(
    alloc: Global,
    lists: &[CellList],
    place: usize,
    effort: Effort,
    best: &mut Option<Best>,
) -> Result<Option<u128>, OutOfMemory> {
    let Some(list) = lists.get(place) else {
        return Ok(None);
    };
    let Some(drawn) = draw_list(alloc, list, effort)? else {
        return Ok(None);
    };
    let cost = cost_of(&drawn.drawing);
    keep_better(best, Best { place, drawn });
    Ok(Some(cost))
}

// Whether a netlist with this list is drawn by no other list if not by this one: it has so many cells
// that what fails is the number of tiles, and the other lists have about as many.
fn is_huge(lists: &[CellList], place: usize) -> bool {
    match lists.get(place) {
        Some(list) => list.cells.len() > HUGE,
        None => false,
    }
}

// Draws all lists with little effort. Returns what the drawings cost, each with its list's place, the
// cheapest first.
fn draw_briefly(
    alloc: Global,
    lists: &[CellList],
    best: &mut Option<Best>,
) -> Result<Vec<(u128, usize)>, OutOfMemory> {
    let mut costs = Vec::new(alloc);
    for place in 0..lists.len() {
        match draw_at(alloc, lists, place, Effort::Brief, best)? {
            Some(cost) => costs.push((cost, place))?,
            None if is_huge(lists, place) => break,
            None => {}
        }
    }
    costs.sort()?;
    Ok(costs)
}

// How many lists are drawn with the whole search.
fn most_whole(lists: &[CellList]) -> usize {
    match lists.first() {
        Some(list) if list.cells.len() > MANY_CELLS => 1,
        _ => MOST_WHOLE,
    }
}

// Draws with the whole search those lists whose brief drawings cost least.
fn draw_wholly(
    alloc: Global,
    lists: &[CellList],
    costs: &[(u128, usize)],
    best: &mut Option<Best>,
) -> Result<(), OutOfMemory> {
    for number in 0..most_whole(lists) {
        let Some((_, place)) = costs.get(number).copied() else {
            break;
        };
        draw_at(alloc, lists, place, Effort::Whole, best)?;
    }
    Ok(())
}

fn draw_all(alloc: Global, lists: &[CellList], best: &mut Option<Best>) -> Result<(), OutOfMemory> {
    let costs = draw_briefly(alloc, lists, best)?;
    draw_wholly(alloc, lists, &costs, best)
}

/// Returns the best drawing of lists of cells, and its list's place: all lists are drawn with little
/// effort, and those whose drawings cost least with the whole search.
pub fn best_drawn(alloc: Global, lists: &[CellList]) -> Result<Option<Best>, OutOfMemory> {
    let mut best = None;
    match draw_all(alloc, lists, &mut best) {
        Ok(()) => Ok(best),
        Err(error) => {
            drop(best);
            Err(error)
        }
    }
}
