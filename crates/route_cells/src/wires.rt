// Wires that keep time, and have the electrons of their start bits.
ghost use Rattle.std.specs.Prelude.{◌≡◌, ◌<◌, ◌+◌, ◌*◌, ◌^◌, suc, length, None, IfOk, IsTrue};
ghost use Rattle.route_tables.specs.Runs.{IsDelayedByWire, ShowsStarts};
ghost use Rattle.route_cells.specs.Wires.{CarriesBits, WireKeepsTime};

use crate::RouteError;
use crate::chains::start_bits;
use crate::electrons::{are_clear, shows_end, wrong_cell};
use gate_library::PortCell;
use route_tables::{CellFault, FaultWord, TableWire, Tables, input_port, state_at};
use std::alloc::Global;
use ww_rule::State;

// Whether a wire of this size takes from one generation to another one so many periods later.
fn takes(from: u64, size: u32, to: u64, cycles: u32, period: u64) -> bool
    ensures { IsTrue result → from + suc size ≡ to + cycles * period }
{
    u128::from(from) + u128::from(size) + 1
        == u128::from(to) + u128::from(cycles) * u128::from(period)
}

// A fault at a wire's first cell.
fn at_start(t: &Tables, wire: TableWire, word: FaultWord) -> CellFault {
    t.fault_at_cell(word, wire.start as usize)
}

// A fault if the electrons on a wire are not the bits that come out at its end: at the first cell that has another
// state, or else at the input there; or at the wire's first cell, if no wire of its size has room for these bits.
fn electron_fault(
    t: &Tables,
    states: &[State],
    period: u64,
    wire: TableWire,
    to: PortCell,
    bits: &[bool],
) -> Option<CellFault>
    requires some { 0 < period }
    requires few { length bits.now < 2 ^ 32 }
    ensures { result ≡ None → CarriesBits t.now states.now period wire to bits.now }
{
    let word = FaultWord::Electron;
    if let Some(i) = wrong_cell(t, states, wire, to.generation, period, bits) {
        return Some(t.fault_at_cell(word, wire.start as usize + i as usize));
    }
    let end = state_at(states, t.width, to.x, to.y);
    if !shows_end(end, to.generation, period, bits) {
        return Some(CellFault {
            word,
            x: to.x,
            y: to.y,
        });
    }
    if !are_clear(wire.size, to.generation, period, bits) {
        return Some(at_start(t, wire, word));
    }
    None
}

// Tests a wire from its beginning to its end.
fn wire_between(
    alloc: Global,
    t: &Tables,
    states: &[State],
    period: u64,
    wire: TableWire,
    from: PortCell,
    to: PortCell,
) -> Result<(), RouteError>
    requires some { 0 < period }
    ensures { IfOk result (λ _. WireKeepsTime t.now states.now period wire from to) }
{
    if !takes(
        from.generation,
        wire.size,
        to.generation,
        wire.cycles,
        period,
    ) {
        return Err(RouteError::Fault(at_start(t, wire, FaultWord::Length)));
    }
    let (first, last) = (t.source(wire.from), t.source(input_port(wire.to)));
    let Some(bits) = start_bits(alloc, &t.list, first, last, wire.cycles)? else {
        return Err(RouteError::Fault(at_start(t, wire, FaultWord::Order)));
    };
    match electron_fault(t, states, period, wire, to, &bits) {
        None => Ok(()),
        Some(fault) => Err(RouteError::Fault(fault)),
    }
}

/// Tests that a wire's length fits its latches, and that it has the electrons of their start bits.
pub fn test_wire(
    alloc: Global,
    t: &Tables,
    states: &[State],
    period: u64,
    w: usize,
) -> Result<(), RouteError>
    requires some { 0 < period }
    ensures { IfOk result (λ _. IsDelayedByWire t.now period w
        × ShowsStarts t.now states.now period w) }
{
    let wire = t.wire(w);
    let Some(from) = t.port(wire.from) else {
        return Err(RouteError::Fault(at_start(t, wire, FaultWord::Wire)));
    };
    let Some(to) = t.port(input_port(wire.to)) else {
        return Err(RouteError::Fault(at_start(t, wire, FaultWord::Wire)));
    };
    wire_between(alloc, t, states, period, wire, from, to)
}
