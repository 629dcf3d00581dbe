// Cells for a table of up to six nets. Nothing is proved of what is found: whoever takes it checks
// it.
ghost use Rattle.std.specs.Prelude.{◌<◌, ◌≤◌};

use cell_core::{Cell, CellError, Src, net_word};
use lists::List;
use std::alloc::Global;

/// Cells that read only nets and each other, and the source that has the table (`root`).
#[derive(Drop)]
pub struct Found {
    pub cells: List<Cell>,
    pub root: Src,
}

fn up(word: u64, net: usize) -> u64 {
    match net {
        0 => word << 1,
        1 => word << 2,
        2 => word << 4,
        3 => word << 8,
        4 => word << 16,
        _ => word << 32,
    }
}

fn down(word: u64, net: usize) -> u64 {
    match net {
        0 => word >> 1,
        1 => word >> 2,
        2 => word >> 4,
        3 => word >> 8,
        4 => word >> 16,
        _ => word >> 32,
    }
}

// The table where the net is 0.
fn without(table: u64, net: usize) -> u64
    requires { net < 6 }
{
    let half = table & !net_word(net);
    half | up(half, net)
}

// The table where the net is 1.
fn with(table: u64, net: usize) -> u64
    requires { net < 6 }
{
    let half = table & net_word(net);
    half | down(half, net)
}

// How many nets the table reads.
fn support(table: u64) -> usize
    ensures { result ≤ 6 }
{
    let mut count = 0;
    for net in 0..6 {
        if without(table, net) != with(table, net) {
            count += 1;
        }
    }
    count
}

// The net at which to split: the table where it is 1, and its difference from the table where it is
// 0, then read the fewest nets.
fn split_at(table: u64) -> usize
    ensures { result < 6 }
{
    let mut best = 0;
    let mut least = 99;
    for net in 0..6 {
        let zero = without(table, net);
        let one = with(table, net);
        if zero != one {
            let cost = support(one) + support(zero ^ one) + (one & 1) as usize;
            if cost < least {
                least = cost;
                best = net;
            }
        }
    }
    best
}

// The cell of a net and of a source for the table where it is 0, if the table where it is 1 is all
// 0, all 1, or the complement of the other.
fn joined(net: Src, zero: Src, one: u64) -> Cell {
    match one {
        0 => Cell::AndNot(zero, net),
        u64::MAX => Cell::Or(net, zero),
        _ => Cell::Xor(net, zero),
    }
}

// The place of a cell, if it is there.
fn place_of(cells: &[Cell], cell: Cell) -> Option<usize> {
    for (place, old) in cells.iter().enumerate() {
        if *old == cell {
            return Some(place);
        }
    }
    None
}

// The source of a cell, which is added if it is new.
fn push_new(cells: &mut Vec<Cell>, cell: Cell) -> Result<Src, CellError> {
    let place = match place_of(cells, cell) {
        Some(place) => place,
        None => {
            cells.push(cell)?;
            cells.len() - 1
        }
    };
    match u32::try_from(place) {
        Ok(place) => Ok(Src::Cell(place)),
        Err(_) => Err(CellError::NoMemory),
    }
}

// A source for the AND of two sources.
fn both(cells: &mut Vec<Cell>, a: Src, b: Src) -> Result<Src, CellError> {
    let rest = push_new(cells, Cell::AndNot(a, b))?;
    push_new(cells, Cell::AndNot(a, rest))
}

// A source with the bit of `zero` if the net is 0, and the complement of `not_one` if it is 1.
fn either(cells: &mut Vec<Cell>, net: Src, zero: Src, not_one: Src) -> Result<Src, CellError> {
    let second = push_new(cells, Cell::AndNot(net, not_one))?;
    if zero == Src::Zero {
        return Ok(second);
    }
    let first = push_new(cells, Cell::AndNot(zero, net))?;
    push_new(cells, Cell::Or(first, second))
}

// A source with the bit of `one`, changed by `change` if the net is 0.
fn changed(cells: &mut Vec<Cell>, net: Src, one: Src, change: Src) -> Result<Src, CellError> {
    let kept = push_new(cells, Cell::AndNot(change, net))?;
    push_new(cells, Cell::Xor(one, kept))
}

// A source for a table that is 0 if all nets are 0.
fn build(cells: &mut Vec<Cell>, table: u64, depth: usize) -> Result<Src, CellError> {
    if table == 0 || depth == 0 {
        return Ok(Src::Zero);
    }
    let split = split_at(table);
    let net = Src::Input(split as u32);
    if table == net_word(split) {
        return Ok(net);
    }
    let zero = without(table, split);
    let one = with(table, split);
    if one == 0 || one == u64::MAX || zero == !one {
        let rest = build(cells, zero, depth - 1)?;
        return push_new(cells, joined(net, rest, one));
    }
    if one & 1 == 1 {
        let not_one = build(cells, !one, depth - 1)?;
        let rest = build(cells, zero, depth - 1)?;
        return either(cells, net, rest, not_one);
    }
    let source = build(cells, one, depth - 1)?;
    if zero == 0 {
        return both(cells, net, source);
    }
    let change = build(cells, zero ^ one, depth - 1)?;
    changed(cells, net, source, change)
}

/// Looks for cells whose root has this table.
pub fn search(alloc: Global, table: u64) -> Result<Found, CellError> {
    let mut cells = Vec::new(alloc);
    if table & 1 == 0 {
        let root = build(&mut cells, table, 7)?;
        return Ok(Found {
            cells: List::of(cells),
            root,
        });
    }
    let rest = build(&mut cells, !table, 7)?;
    let root = match rest {
        Src::Zero => Src::One,
        _ => push_new(&mut cells, Cell::AndNot(Src::One, rest))?,
    };
    Ok(Found {
        cells: List::of(cells),
        root,
    })
}
