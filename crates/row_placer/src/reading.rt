// A list of cells by numbers of values.
ghost use Rattle.std.specs.Prelude.{◌≡◌, ◌<◌, ◌+◌, ◌-◌, ◌*◌, ◌^◌, ◌++◌, length, All, map, true, false, IfOk, OnOk};
ghost use Rattle.cell_core.specs.Loops.{loop_count};
ghost use Rattle.row_placer.specs.Numbers.{number, gate_of, IsThere, ReadsWhatIsThere, NamesZero, ReadsThere};
ghost use Rattle.row_placer.specs.Placed.{HasHomeIfZero, HavePlaces, net_place_of};
ghost use Rattle.cell_core.specs.declared.cells.Src.TheVariants.{Zero};

use crate::{CellKind, NumberedCell, PlaceError};
use cell_core::{Cell, CellList, Src};
use lane_core::NetPlace;
use std::alloc::Global;

/// Returns how many loops there are: one for each latch, and one for constant 1 if it is named.
pub fn count_loops(list: &CellList) -> u32
    requires { loop_count list.now < 2 ^ 32 }
    ensures { result ≡ loop_count list.now }
{
    let one = if list.names_one() { 1 } else { 0 };
    list.starts.len() as u32 + one
}

/// Returns the number of a source in a list with so many loops.
pub fn number_of(list: &CellList, loops: u32, src: Src) -> u32
    requires loops { loops ≡ loop_count list.now }
    requires small { list.now.inputs + loop_count list.now < 2 ^ 32 }
    requires fits { number list.now src < 2 ^ 32 }
    ensures { result ≡ number list.now src }
{
    match src {
        Src::Input(i) => i,
        Src::Latch(i) => list.inputs + i,
        Src::One => list.inputs + list.starts.len() as u32,
        Src::Zero => list.inputs + loops,
        Src::Cell(i) => list.inputs + loops + 1 + i,
    }
}

/// Returns the gates of the cells.
pub fn gates_of(alloc: Global, list: &CellList, loops: u32) -> Result<Vec<NumberedCell>, PlaceError>
    requires loops { loops ≡ loop_count list.now }
    requires sound { ReadsWhatIsThere list.now }
    requires small { list.now.inputs + loop_count list.now + 1 + length list.now.cells < 2 ^ 32 }
    ensures { IfOk result (λ v. v.items ≡ map (gate_of list.now) list.now.cells) }
{
    let mut gates = Vec::new(alloc);
    let mut at = 0;
    while at < list.cells.len() {
        gates.push(find_gate(list, loops, *list.cells.get(at)))?;
        at += 1;
    }
    Ok(gates)
}

fn find_gate(list: &CellList, loops: u32, cell: Cell) -> NumberedCell
    requires loops { loops ≡ loop_count list.now }
    requires small { list.now.inputs + loop_count list.now + 1 + length list.now.cells < 2 ^ 32 }
    requires there { ReadsThere list.now (length list.now.cells) cell }
    ensures { result ≡ gate_of list.now cell }
{
    let (kind, a, b) = match cell {
        Cell::Or(a, b) => (CellKind::Or, a, b),
        Cell::Xor(a, b) => (CellKind::Xor, a, b),
        Cell::AndNot(a, b) => (CellKind::AndNot, a, b),
    };
    NumberedCell {
        kind,
        first: number_of(list, loops, a),
        second: number_of(list, loops, b),
    }
}

/// Adds the numbers of sources to the end of `numbers`.
pub fn push_numbers(
    list: &CellList,
    loops: u32,
    srcs: &[Src],
    numbers: &mut Vec<u32>,
) -> Result<(), PlaceError>
    requires loops { loops ≡ loop_count list.now }
    requires there { All (IsThere list.now (length list.now.cells)) srcs.now }
    requires small { list.now.inputs + loop_count list.now + 1 + length list.now.cells < 2 ^ 32 }
    ensures { OnOk result (
        numbers.new.items ≡ numbers.old.items ++ map (number list.now) srcs.now
        ) }
{
    let mut at = 0;
    while at < srcs.len() {
        numbers.push(number_of(list, loops, srcs[at]))?;
        at += 1;
    }
    Ok(())
}

/// Returns whether constant 0 is among the sources.
pub fn names_zero(srcs: &[Src]) -> bool
    ensures named { NamesZero srcs.now result }
    ensures none { length srcs.now ≡ 0 → result ≡ false }
{
    let mut at = 0;
    while at < srcs.len() {
        if is_zero(srcs[at]) {
            return true;
        }
        at += 1;
    }
    false
}

// Whether one of the cells reads constant 0.
fn cells_read_zero(cells: &[Cell]) -> bool {
    for cell in cells {
        let (a, b) = match *cell {
            Cell::Or(a, b) | Cell::Xor(a, b) | Cell::AndNot(a, b) => (a, b),
        };
        if is_zero(a) || is_zero(b) {
            return true;
        }
    }
    false
}

/// Returns whether constant 0 is read by a cell, or named by a port or a net.
pub fn reads_zero(list: &CellList) -> bool {
    names_zero(list.outs.as_slice())
        || names_zero(list.latches.as_slice())
        || names_zero(list.nets.as_slice())
        || cells_read_zero(list.cells.as_slice())
}

fn is_zero(src: Src) -> bool
    ensures { src ≡ Zero → result ≡ true }
{
    match src {
        Src::Zero => true,
        _ => false,
    }
}

/// Returns the places of the nets.
pub fn places_of(
    alloc: Global,
    list: &CellList,
    loops: u32,
    homes: &[u32],
    made: &[NetPlace],
) -> Result<Vec<NetPlace>, PlaceError>
    requires loops { loops ≡ loop_count list.now }
    requires sound { ReadsWhatIsThere list.now }
    requires places { HavePlaces list.now homes.now made.now }
    requires zero { All (HasHomeIfZero list.now homes.now) list.now.nets }
    ensures { IfOk result (λ v.
        v.items ≡ map (net_place_of list.now homes.now made.now) list.now.nets
        ) }
{
    let mut places = Vec::new(alloc);
    let mut at = 0;
    while at < list.nets.len() {
        places.push(find_place(list, loops, homes, made, *list.nets.get(at)))?;
        at += 1;
    }
    Ok(places)
}

fn find_place(list: &CellList, loops: u32, homes: &[u32], made: &[NetPlace], src: Src) -> NetPlace
    requires loops { loops ≡ loop_count list.now }
    requires there { IsThere list.now (length list.now.cells) src }
    requires places { HavePlaces list.now homes.now made.now }
    requires zero { HasHomeIfZero list.now homes.now src }
    ensures { result ≡ net_place_of list.now homes.now made.now src }
{
    match src {
        Src::Cell(i) => made[i as usize],
        src => NetPlace {
            lane: homes[number_of(list, loops, src) as usize],
            after: None,
        },
    }
}
