// The timing law of a slice of cells, tested for each choice of entries.
ghost use Rattle.std.specs.Prelude.{◌⊎◌, [], Bool, ◌++◌, ◌≡◌, ◌*◌, ◌/◌, ◌%◌, ◌<◌, ◌≤◌, ◌↔◌, pos, length, IsTrue, true, map, All, take, drop, ◌≢◌};
ghost use Rattle.lists.specs.Items.{flag_at};
ghost use Rattle.std.specs.List.{list_any};
ghost use Rattle.tile_core.specs.Drawing.{is_cell_of, picture};
ghost use Rattle.tile_core.specs.Interface.{cell_at, chosen, entry_cells, exit_cells, lit_exits, is_on_border};
ghost use Rattle.tile_core.specs.Kinds.{lanes, interface};
ghost use Rattle.tile_core.specs.TimingLaw.{started, KeepsTime, HasPorts};
ghost use Rattle.tile_timing.specs.Window.{shown};
ghost use Rattle.tile_timing.specs.Law.{drawing_of, marked, HoldsLaw, is_at, IsClearAt, IsBorderClear, AreDrawn, AreDark, AreLitAs, ExitsInTime, IsInTime};

use crate::window_step;
use tile_core::Kind;
use ww_rule::State;

fn is_head_at(cells: &[State], x: u32, y: u32) -> bool
    ensures { IsTrue result ↔ (shown cells.now 32 (pos x) (pos y) ≡ State.Head) }
{
    x < 32 && matches!(cells.get(y as usize * 32 + x as usize), Some(State::Head))
}

fn is_at(port: (u32, u32), x: usize, y: usize) -> bool
    ensures { result ≡ is_at port x y }
{
    x == port.0 as usize && y == port.1 as usize
}

// Whether the cell is one of the ports.
fn is_port(ports: &[(u32, u32)], x: usize, y: usize) -> bool
    ensures { result ≡ list_any (λ port. is_at port x y) ports.now }
{
    ports.iter().any(|port| is_at(*port, x, y))
}

// Whether the cell is the port with this number.
fn is_port_number(ports: &[(u32, u32)], number: usize, x: usize, y: usize) -> bool
    ensures { result ≡ list_any (λ port. is_at port x y) (take 1 (drop number ports.now)) }
{
    match ports.get(number) {
        Some(port) => is_at(*port, x, y),
        None => false,
    }
}

// Whether the cell is one of the ports whose bits are true.
#[tactic(auto, using(crate::proofs::Ports::lit_of_two))]
fn is_lit(ports: &[(u32, u32)], bits: [bool; 2], x: usize, y: usize) -> bool
    requires few { length ports.now ≤ 2 }
    ensures { result ≡ is_cell_of (pos x) (pos y) (chosen (map cell_at ports.now) bits) }
{
    let [first, second] = bits;
    let is_first = is_port_number(ports, 0, x, y);
    let is_second = is_port_number(ports, 1, x, y);
    (first && is_first) || (second && is_second)
}

fn are_dark(cells: &[State], ports: &[(u32, u32)]) -> bool
    ensures { IsTrue result ↔ All (λ port. shown cells.now 32 (pos port.0) (pos port.1) ≢
        State.Head) ports.now }
{
    ports.iter().all(|(x, y)| !is_head_at(cells, *x, *y))
}

fn is_lit_as(cells: &[State], ports: &[(u32, u32)], bits: [bool; 2]) -> bool
    requires few { length ports.now ≤ 2 }
    ensures { IsTrue result ↔ All (λ port. (shown cells.now 32 (pos port.0) (pos port.1) ≡
        State.Head)
        ↔ (is_cell_of (pos port.0) (pos port.1) (chosen (map cell_at ports.now) bits) ≡
        true)) ports.now }
{
    ports.iter().all(|(x, y)| is_head_at(cells, *x, *y)
        == is_lit(ports, bits, *x as usize, *y as usize))
}

fn entries_are_dark(cells: &[State], kind: Kind) -> bool
    ensures { IsTrue result ↔ AreDark (entry_cells (interface kind)) (shown cells.now 32) }
{
    let lanes = kind.lanes() as usize;
    let entries = kind.entries();
    are_dark(cells, &entries[..lanes])
}

fn exits_are_dark(cells: &[State], kind: Kind) -> bool
    ensures { IsTrue result ↔ AreDark (exit_cells (interface kind)) (shown cells.now 32) }
{
    let lanes = kind.lanes() as usize;
    let exits = kind.exits();
    are_dark(cells, &exits[..lanes])
}

fn exits_answer(cells: &[State], kind: Kind, lit: [bool; 2]) -> bool
    ensures { IsTrue result
        ↔ AreLitAs (exit_cells (interface kind))
        (lit_exits (interface kind) (flag_at lit 0) (flag_at lit 1)) (
        shown cells.now 32
        ) }
{
    let lanes = kind.lanes() as usize;
    let exits = kind.exits();
    is_lit_as(cells, &exits[..lanes], kind.answer(lit))
}

fn exits_are_in_time(cells: &[State], kind: Kind, lit: [bool; 2], generation: usize) -> bool
    ensures { IsTrue result
        ↔ ExitsInTime (interface kind) (flag_at lit 0) (flag_at lit 1) generation (
        shown cells.now 32
        ) }
{
    if generation == 31 {
        exits_answer(cells, kind, lit)
    } else {
        exits_are_dark(cells, kind)
    }
}

// Whether the ports keep the timing law at one generation.
fn is_in_time(cells: &[State], kind: Kind, lit: [bool; 2], generation: usize) -> bool
    ensures { IsTrue result
        ↔ IsInTime (interface kind) (flag_at lit 0) (flag_at lit 1) generation (
        shown cells.now 32
        ) }
{
    if !exits_are_in_time(cells, kind, lit, generation) {
        return false;
    }
    generation == 0 || entries_are_dark(cells, kind)
}

// The cell with number `i` of the drawing, if the ports whose bits are true are in the state
// `mark`.
fn marked_at(base: &[State], ports: &[(u32, u32)], bits: [bool; 2], mark: State, i: usize) -> State
    requires few { length ports.now ≤ 2 }
    requires inside { i < length base.now }
    ensures { result
        ≡ marked (drawing_of base.now) (chosen (map cell_at ports.now) bits) mark (pos (i % 32)) (
        pos (i / 32)
        ) }
{
    match base[i] {
        State::Empty => State::Empty,
        State::Head | State::Tail | State::Conductor => if is_lit(ports, bits, i % 32, i / 32) {
            mark
        } else {
            State::Conductor
        },
    }
}

// Draws the drawing, with the ports whose bits are true in the state `mark`.
fn draw_marked(
    base: &[State],
    cells: &mut [State],
    ports: &[(u32, u32)],
    bits: [bool; 2],
    mark: State,
)
    requires few { length ports.now ≤ 2 }
    requires same_length { length cells.old ≡ length base.now }
    ensures shows { shown cells.new 32 ≡ marked (drawing_of base.now)
        (chosen (map cell_at ports.now) bits) mark }
    ensures same_length { length cells.new ≡ length base.now }
{
    for (i, cell) in cells.iter_mut().enumerate() {
        *cell = marked_at(base, ports, bits, mark, i);
    }
}

fn is_same(a: State, b: State) -> bool
    ensures { IsTrue result ↔ (a ≡ b) }
{
    a == b
}

// Whether the cells are what `draw_marked` draws.
fn is_marked(
    base: &[State],
    cells: &[State],
    ports: &[(u32, u32)],
    bits: [bool; 2],
    mark: State,
) -> bool
    requires few { length ports.now ≤ 2 }
    requires same_length { length cells.now ≡ length base.now }
    ensures { IsTrue result
        ↔ (
        shown cells.now 32
        ≡ marked (drawing_of base.now) (chosen (map cell_at ports.now) bits) mark
        ) }
{
    for (i, cell) in cells.iter().enumerate() {
        if !is_same(*cell, marked_at(base, ports, bits, mark, i)) {
            return false;
        }
    }
    true
}

// Draws the drawing with the chosen entries lit.
fn light(base: &[State], cells: &mut [State], kind: Kind, lit: [bool; 2])
    requires same_length { length cells.old ≡ length base.now }
    ensures shows { shown cells.new 32
        ≡ started (interface kind) (drawing_of base.now) (flag_at lit 0) (flag_at lit 1) }
    ensures same_length { length cells.new ≡ length base.now }
{
    let lanes = kind.lanes() as usize;
    let entries = kind.entries();
    draw_marked(base, cells, &entries[..lanes], lit, State::Head);
}

// Whether the exits that were lit are tails, and the drawing's other cells conductors.
fn is_at_rest(base: &[State], cells: &[State], kind: Kind, lit: [bool; 2]) -> bool
    requires same_length { length cells.now ≡ length base.now }
    ensures { IsTrue result
        ↔ (
        shown cells.now 32
        ≡ picture (drawing_of base.now) [] (
        lit_exits (interface kind) (flag_at lit 0) (flag_at lit 1)
        )
        ) }
{
    let lanes = kind.lanes() as usize;
    let exits = kind.exits();
    is_marked(base, cells, &exits[..lanes], kind.answer(lit), State::Tail)
}

// Whether the timing law holds for one choice of entries; `now` and `next` are overwritten.
fn keeps_time(
    base: &[State],
    kind: Kind,
    lit: [bool; 2],
    now: &mut [State],
    next: &mut [State],
) -> bool
    requires whole { length base.now % 32 ≡ 0 }
    requires now_length { length now.old ≡ length base.now }
    requires next_length { length next.old ≡ length base.now }
    ensures { IsTrue result
        ↔ KeepsTime (interface kind) (drawing_of base.now) (flag_at lit 0) (
        flag_at lit 1
        ) }
{
    light(base, now, kind, lit);
    for generation in 0..32 {
        if !is_in_time(now, kind, lit, generation) {
            return false;
        }
        window_step(now, next, 32);
        now.copy_from_slice(next);
    }
    is_in_time(now, kind, lit, 32) && is_at_rest(base, now, kind, lit)
}

const CHOICES: [[bool; 2]; 4] = [[false, false], [false, true], [true, false], [true, true]];

// Whether the timing law holds for every choice of entries; `now` and `next` are overwritten.
fn always_keeps_time(base: &[State], kind: Kind, now: &mut [State], next: &mut [State]) -> bool
    requires whole { length base.now % 32 ≡ 0 }
    requires now_length { length now.old ≡ length base.now }
    requires next_length { length next.old ≡ length base.now }
    ensures { IsTrue result ↔ ((a b : Bool) →
        KeepsTime (interface kind) (drawing_of base.now) a b) }
{
    for lit in &CHOICES {
        if !keeps_time(base, kind, *lit, now, next) {
            return false;
        }
    }
    true
}

fn are_filled(cells: &[State], ports: &[(u32, u32)]) -> bool
    ensures { IsTrue result ↔ All (λ port. drawing_of cells.now (pos port.0) (pos port.1) ≡
        true) ports.now }
{
    ports.iter().all(|(x, y)| is_filled_at(cells, *x, *y))
}

fn is_filled_at(cells: &[State], x: u32, y: u32) -> bool
    ensures { result ≡ drawing_of cells.now (pos x) (pos y) }
{
    if x >= 32 {
        return false;
    }
    match cells.get(y as usize * 32 + x as usize) {
        Some(State::Head | State::Tail | State::Conductor) => true,
        Some(State::Empty) | None => false,
    }
}

fn is_on_border(kind: Kind, x: usize, y: usize) -> bool
    ensures { result ≡ is_on_border (interface kind) (pos x) (pos y) }
{
    let rows = 16 * kind.lanes() as usize;
    x < 32 && y < rows && (x == 0 || x == 31 || y == 0 || y + 1 == rows)
}

// Whether the cell is an entry or an exit.
fn is_any_port(kind: Kind, x: usize, y: usize) -> bool
    ensures { result ≡ is_cell_of (pos x) (pos y)
        (entry_cells (interface kind) ++ exit_cells (interface kind)) }
{
    let lanes = kind.lanes() as usize;
    let entries = kind.entries();
    let exits = kind.exits();
    is_port(&entries[..lanes], x, y) || is_port(&exits[..lanes], x, y)
}

// Whether the cells on the border that are no ports are empty.
fn is_border_clear(cells: &[State], kind: Kind) -> bool
    ensures { IsTrue result ↔ IsBorderClear kind cells.now }
{
    for (i, cell) in cells.iter().enumerate() {
        if !is_clear_at(kind, *cell, i % 32, i / 32) {
            return false;
        }
    }
    true
}

fn is_clear_at(kind: Kind, cell: State, x: usize, y: usize) -> bool
    ensures { IsTrue result ↔ IsClearAt kind cell x y }
{
    is_same(cell, State::Empty) || !is_on_border(kind, x, y) || is_any_port(kind, x, y)
}

fn has_entries(cells: &[State], kind: Kind) -> bool
    ensures { IsTrue result ↔ AreDrawn (entry_cells (interface kind)) (drawing_of cells.now) }
{
    let lanes = kind.lanes() as usize;
    let entries = kind.entries();
    are_filled(cells, &entries[..lanes])
}

fn has_exits(cells: &[State], kind: Kind) -> bool
    ensures { IsTrue result ↔ AreDrawn (exit_cells (interface kind)) (drawing_of cells.now) }
{
    let lanes = kind.lanes() as usize;
    let exits = kind.exits();
    are_filled(cells, &exits[..lanes])
}

fn has_ports(cells: &[State], kind: Kind) -> bool
    requires size { length cells.now ≡ 512 * lanes kind }
    ensures { IsTrue result ↔ HasPorts (interface kind) (drawing_of cells.now) }
{
    if !has_entries(cells, kind) || !has_exits(cells, kind) {
        return false;
    }
    is_border_clear(cells, kind)
}

// Whether there are neither heads nor tails.
fn is_unlit(cells: &[State]) -> bool
    ensures { IsTrue result ↔ All (λ cell. (cell ≡ State.Empty) ⊎
        (cell ≡ State.Conductor)) cells.now }
{
    cells.iter().all(|cell| is_same(*cell, State::Empty) || is_same(*cell, State::Conductor))
}

/// Returns whether `cells` are a drawing of `kind` that keeps the timing law: 16 rows of 32 cells
/// for each of the kind's lanes, row after row, each cell empty or a conductor. A slice of another
/// length, or with a head or a tail, is no drawing.
pub fn law_holds(cells: &[State], kind: Kind) -> bool
    ensures { IsTrue result ↔ HoldsLaw kind cells.now }
{
    let size = 512 * kind.lanes() as usize;
    if cells.len() != size || !is_unlit(cells) || !has_ports(cells, kind) {
        return false;
    }
    let mut now = [State::Empty; 1024];
    let mut next = [State::Empty; 1024];
    always_keeps_time(cells, kind, &mut now[..size], &mut next[..size])
}
