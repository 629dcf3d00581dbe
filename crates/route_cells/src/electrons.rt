// Electrons on wires.
ghost use Rattle.std.specs.Prelude.{◌≡◌, ◌<◌, ◌≤◌, ◌+◌, ◌*◌, ◌^◌, suc, pos, false, ℕ, length, if◌then◌else◌, IsTrue, IfNone};
ghost use Rattle.lists.specs.Items.{flag_at};
ghost use Rattle.gate_laws.specs.Signals.{cell_state};
ghost use Rattle.route_tables.specs.Serials.{listed_cell};
ghost use Rattle.route_tables.specs.Tables.{box_plane};
ghost use Rattle.route_cells.specs.Electrons.{comes_at, state_before};

use route_tables::{TableWire, Tables, state_at};
use ww_rule::State;

/// Returns whether two states are one.
pub fn is_same(a: State, b: State) -> bool
    ensures { IsTrue result → a ≡ b }
{
    a == b
}

// Whether a signal is lit at generation `g` that comes first at `first`, and has these bits in its
// cycles.
fn comes_at(first: u64, period: u64, bits: &[bool], g: u64) -> bool
    requires some { 0 < period }
    ensures { result ≡ comes_at first period bits.now g }
{
    if g < first {
        return false;
    }
    let since = g - first;
    if since % period != 0 {
        return false;
    }
    match bits.get((since / period) as usize) {
        Some(bit) => *bit,
        None => false,
    }
}

// The state at generation 0 of a wire's cell after which so many cells come.
fn state_before(first: u64, period: u64, bits: &[bool], after: u64) -> State
    requires some { 0 < period }
    requires low { after + 1 < 2 ^ 64 }
    ensures { result ≡ state_before first period bits.now after }
{
    if comes_at(first, period, bits, after + 1) {
        State::Head
    } else if comes_at(first, period, bits, after) {
        State::Tail
    } else {
        State::Conductor
    }
}

// Whether cell `i` of a wire has the state of the bits that come out at its end.
fn shows_cell(
    t: &Tables,
    states: &[State],
    wire: TableWire,
    i: u32,
    first: u64,
    period: u64,
    bits: &[bool],
) -> bool
    requires some { 0 < period }
    requires inside { i < wire.size }
    ensures { IsTrue result → ((rest : ℕ) → i + suc rest ≡ wire.size →
        cell_state (box_plane t.now states.now) (listed_cell t.now.cells (wire.start + i))
        ≡ state_before first period bits.now rest) }
{
    let cell = t.cell(wire.start as usize + i as usize);
    let after = u64::from(wire.size - 1 - i);
    is_same(
        state_at(states, t.width, cell.0, cell.1),
        state_before(first, period, bits, after),
    )
}

/// Returns the number of a wire's first cell that has not the state of the bits that come out at the
/// wire's end, the first of them at generation `first`.
pub fn wrong_cell(
    t: &Tables,
    states: &[State],
    wire: TableWire,
    first: u64,
    period: u64,
    bits: &[bool],
) -> Option<u32>
    requires some { 0 < period }
    ensures { IfNone result ((i : ℕ) → i < wire.size → (rest : ℕ) → i + suc rest ≡ wire.size →
        cell_state (box_plane t.now states.now) (listed_cell t.now.cells (wire.start + i))
        ≡ state_before first period bits.now rest) }
{
    for i in 0..wire.size {
        if !shows_cell(t, states, wire, i, first, period, bits) {
            return Some(i);
        }
    }
    None
}

/// Returns whether an input at the end of a wire is a head at generation 0 exactly if a bit comes
/// out then, and else a conductor.
pub fn shows_end(state: State, first: u64, period: u64, bits: &[bool]) -> bool
    requires some { 0 < period }
    ensures { IsTrue result → state ≡
        (if comes_at first period bits.now 0 then State.Head else State.Conductor) }
{
    if comes_at(first, period, bits, 0) {
        is_same(state, State::Head)
    } else {
        is_same(state, State::Conductor)
    }
}

/// Returns whether no bit would be in a wire's first cell at generation 0, or before it.
pub fn are_clear(size: u32, first: u64, period: u64, bits: &[bool]) -> bool
    requires few { length bits.now < 2 ^ 32 }
    ensures { IsTrue result → ((t : ℕ) → t < length bits.now → size ≤ first + t * period →
        flag_at bits.now t ≡ false) }
{
    for (t, bit) in bits.iter().enumerate() {
        let at = u128::from(first) + t as u128 * u128::from(period);
        if *bit && u128::from(size) <= at {
            return false;
        }
    }
    true
}
