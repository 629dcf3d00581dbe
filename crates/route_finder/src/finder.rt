// The search.

use crate::error::FindError;
use crate::gates::find_gates;
use crate::links::{follow_rings, follow_wires};
use crate::lone::{add_ends, add_table_cells, fault_of_lone_cells};
use crate::periods::find_periods;
use crate::result::{add_wires, time_gates};
use crate::templates::Templates;
use crate::times::find_times;
use crate::uses::{fault_of_ends, note_table};
use crate::ways::direct_wires;
use crate::wires::Links;
use gate_library::Drawing;
use pattern_reading::Ports;
use route_lines::{Board, TableCell, Wiring};
use std::alloc::Global;
use ww_rule::Pattern;

// The most generations of a period or a latency.
const MOST_GENERATIONS: u64 = 2147483648;

// Finds all gates, lone cells among them, and returns the first fault of these.
fn find_all_gates(alloc: Global, board: &mut Board, table: &[TableCell]) -> Option<FindError> {
    let templates = Templates::of(alloc, &board.library);
    board.is_short |= templates.is_short;
    find_gates(board, &templates);
    add_table_cells(board, table);
    add_ends(board);
    let fault = fault_of_lone_cells(board, &templates);
    drop(templates);
    fault
}

// Finds the wires between gates, and in which direction each runs.
fn find_wires(links: &mut Links, board: &mut Board, pattern: &Pattern) {
    follow_wires(links, board, pattern, 0);
    follow_rings(links, board, pattern);
    links.make_room(board.gates.len());
    direct_wires(links, &mut board.path, pattern);
    let fault = fault_of_ends(links, board, pattern);
    links.note(fault);
}

// Adds the wires that were found and the ports of the table, and finds when each gate is lit.
fn finish(
    alloc: Global,
    links: &mut Links,
    board: &mut Board,
    wiring: &mut Wiring,
    pattern: &Pattern,
) {
    let mut times = find_times(alloc, links, board, pattern, &wiring.table);
    find_periods(alloc, &mut times, links, board, &wiring.table);
    let fault = add_wires(wiring, board, pattern, links, &times);
    links.note(fault);
    time_gates(board, &times);
    wiring.add_ports(board);
    board.is_short |= times.is_short;
    drop(times);
}

// Finds gates and the wires between them, and when each gate is lit, on a board on which nothing is found yet. Returns
// the first fault.
fn search(
    alloc: Global,
    board: &mut Board,
    wiring: &mut Wiring,
    pattern: &Pattern,
) -> Option<FindError> {
    let mut links = Links {
        all: Vec::new(alloc),
        uses: Vec::new(alloc),
        inputs: Vec::new(alloc),
        todo: Vec::new(alloc),
        fault: find_all_gates(alloc, board, &wiring.table),
        is_short: false,
    };
    note_table(&mut links, board, &wiring.table);
    if links.fault.is_none() {
        find_wires(&mut links, board, pattern);
        finish(alloc, &mut links, board, wiring, pattern);
    }
    board.is_short |= links.is_short;
    let fault = links.fault;
    drop(links);
    fault
}

// Finds the drawing of a pattern, on whose board nothing is found yet.
fn find_on(
    alloc: Global,
    mut board: Board,
    pattern: &Pattern,
    ports: &Ports,
) -> Result<Drawing, FindError> {
    let mut wiring = Wiring::of(alloc, ports);
    let fault = search(alloc, &mut board, &mut wiring, pattern);
    match board.into_drawing(wiring, fault.is_none()) {
        Ok(Some(drawing)) => Ok(drawing),
        Ok(None) => Err(fault.unwrap_or(FindError::NoMemory)),
        Err(_) => Err(FindError::NoMemory),
    }
}

/// Finds the gates and the wires of a routed circuit in its cells, and when each gate is lit first, from the cells of
/// the port table and from the electrons. Gates are the library's drawings in all turns; wires are rows of cells with
/// two cells beside each; and cells at which wires end or meet are lone cells.
pub fn find(alloc: Global, pattern: &Pattern, ports: &Ports) -> Result<Drawing, FindError> {
    if ports.p.max(ports.l) > MOST_GENERATIONS {
        return Err(FindError::TooLarge);
    }
    match Board::new(alloc, pattern, ports) {
        Ok(Some(board)) => find_on(alloc, board, pattern, ports),
        Ok(None) => Err(FindError::TooLarge),
        Err(_) => Err(FindError::NoMemory),
    }
}
