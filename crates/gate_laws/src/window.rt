// The law of gates, tested for each choice of the bits of up to three inputs.
ghost use Rattle.std.specs.Prelude.{◌≡◌, ◌≢◌, ◌⊎◌, ◌↔◌, ◌<◌, ◌≤◌, ◌+◌, ◌-◌, ◌%◌, ◌/◌, ◌&&◌, ◌||◌, ◌==◌, ◌^◌, pos, ℕ, Bool, length, map, get_or, cond, All, IsTrue, List, true, false};
ghost use Rattle.std.specs.List.{list_any};
ghost use Rattle.ww_rule.specs.Wireworld.{injected};
ghost use Rattle.lists.specs.Items.{flag_at};
ghost use Rattle.tile_timing.specs.Window.{shown};
ghost use Rattle.gate_laws.specs.Gates.{is_lit_input, AnswersInTime, KeepsGateLaw};
ghost use Rattle.gate_laws.specs.Drawings.{in_port_of, number_of_bits, window_gate, is_beside, IsCalmAt, IsDarkBeside, Conducts, IsReadyInput, next_time, IsInputInTime, IsOutputInTime, IsInside, ArePortsInTime, AreInputsReady, in_at, HasCells, IsSized};

use tile_timing::window_step;
use ww_rule::State;

/// An input of a drawing: its cell, and the generation at which it is lit.
#[derive(Clone, Copy)]
pub struct InCell {
    pub x: u32,
    pub y: u32,
    pub generation: u32,
}

/// An output of a drawing: its cell, its delay in generations, and its bit for each number that the
/// bits of the inputs make, the first of them lowest.
#[derive(Clone, Copy)]
pub struct OutCell {
    pub x: u32,
    pub y: u32,
    pub delay: u32,
    pub table: [bool; 8],
}

fn is_same(a: State, b: State) -> bool
    ensures { IsTrue result ↔ (a ≡ b) }
{
    a == b
}

fn state_at(cells: &[State], width: usize, x: u32, y: u32) -> State
    requires narrow { width < 65536 }
    ensures { result ≡ shown cells.now width (pos x) (pos y) }
{
    if x as usize >= width {
        return State::Empty;
    }
    match cells.get(y as usize * width + x as usize) {
        Some(state) => *state,
        None => State::Empty,
    }
}

// Whether the cell is a head exactly if this is wanted.
fn shows(cells: &[State], width: usize, x: u32, y: u32, lit: bool) -> bool
    requires narrow { width < 65536 }
    ensures { IsTrue result ↔ ((shown cells.now width (pos x) (pos y) ≡ State.Head) ↔
        (lit ≡ true)) }
{
    is_same(state_at(cells, width, x, y), State::Head) == lit
}

// Whether the cell x, y is this one or beside it.
fn is_beside(cell: InCell, x: usize, y: usize) -> bool
    requires near { x < 2 ^ 32 }
    requires low { y < 2 ^ 32 }
    ensures { result ≡ is_beside x y cell }
{
    let (u, v) = (cell.x as usize, cell.y as usize);
    x <= u + 1 && u <= x + 1 && y <= v + 1 && v <= y + 1
}

fn is_beside_any(ins: &[InCell], x: usize, y: usize) -> bool
    requires near { x < 2 ^ 32 }
    requires low { y < 2 ^ 32 }
    ensures { result ≡ false → list_any (is_beside x y) ins.now ≡ false }
{
    for cell in ins {
        if is_beside(*cell, x, y) {
            return true;
        }
    }
    false
}

fn bit_at(bits: &[bool], i: usize) -> bool
    ensures { result ≡ flag_at bits.now i }
{
    match bits.get(i) {
        Some(bit) => *bit,
        None => false,
    }
}

// Whether the input with this number is the cell x, y, its generation is this, and its bit is 1.
fn is_lit_number(
    ins: &[InCell],
    bits: &[bool],
    generation: usize,
    number: usize,
    x: usize,
    y: usize,
) -> bool
    requires inside { number < length ins.now }
    ensures { result ≡ (flag_at bits.now number && generation == (in_at ins.now number).generation
        && (in_at ins.now number).x == x && (in_at ins.now number).y == y) }
{
    bit_at(bits, number)
        && generation == ins[number].generation as usize
        && ins[number].x as usize == x
        && ins[number].y as usize == y
}

// Whether an input is the cell x, y, its generation is this, and its bit is 1.
fn is_lit(ins: &[InCell], bits: &[bool], generation: usize, x: usize, y: usize) -> bool
    ensures { result ≡ is_lit_input (map in_port_of ins.now) bits.now generation (pos x) (pos y) }
{
    for i in 0..ins.len() {
        if is_lit_number(ins, bits, generation, i, x, y) {
            return true;
        }
    }
    false
}

// The cell with number `i` of a window, with the inputs lit whose generation this is and whose bits
// are 1.
fn lit_at(
    from: &[State],
    width: usize,
    ins: &[InCell],
    bits: &[bool],
    generation: usize,
    i: usize,
) -> State
    requires sized { length from.now ≤ 1024 }
    requires wide { 0 < width }
    requires inside { i < length from.now }
    ensures { result ≡ cond (is_lit_input (map in_port_of ins.now) bits.now generation
        (pos (i % width)) (pos (i / width))) State.Head (get_or from.now i State.Empty) }
{
    if is_lit(ins, bits, generation, i % width, i / width) {
        State::Head
    } else {
        from[i]
    }
}

// Draws a window with the inputs lit whose generation this is and whose bits are 1.
fn light(
    from: &[State],
    width: usize,
    ins: &[InCell],
    bits: &[bool],
    generation: usize,
    cells: &mut [State],
)
    requires sized { length from.now ≤ 1024 }
    requires wide { 0 < width }
    requires inside { All (IsInside (length from.now) width) ins.now }
    requires same_length { length cells.old ≡ length from.now }
    ensures shows { shown cells.new width ≡ injected (is_lit_input (map in_port_of ins.now) bits.now
        generation) (shown from.now width) }
    ensures same_length { length cells.new ≡ length from.now }
{
    for (i, cell) in cells.iter_mut().enumerate() {
        *cell = lit_at(from, width, ins, bits, generation, i);
    }
}

// Whether the inputs are in time at a generation.
fn ins_in_time(
    now: &[State],
    width: usize,
    ins: &[InCell],
    bits: &[bool],
    generation: usize,
) -> bool
    requires narrow { width < 65536 }
    requires bits { length bits.now ≡ length ins.now }
    ensures { IsTrue result → ((i : ℕ) → i < length ins.now →
        IsInputInTime (shown now.now width) ins.now bits.now generation i) }
{
    for (i, cell) in ins.iter().enumerate() {
        if !shows(
            now,
            width,
            cell.x,
            cell.y,
            generation == cell.generation as usize && bits[i],
        ) {
            return false;
        }
    }
    true
}

// Whether the outputs are in time at a generation.
fn outs_in_time(
    now: &[State],
    width: usize,
    outs: &[OutCell],
    number: usize,
    generation: usize,
) -> bool
    requires narrow { width < 65536 }
    requires few { number < 8 }
    ensures { IsTrue result → All (IsOutputInTime (shown now.now width) number generation) outs.now }
{
    for out in outs {
        if !shows(
            now,
            width,
            out.x,
            out.y,
            generation == out.delay as usize && out.table[number],
        ) {
            return false;
        }
    }
    true
}

fn is_calm_cell(base: State, now: State, beside: bool) -> bool
    ensures { IsTrue result → ((now ≡ base)
        ⊎ ((now ≡ State.Tail) × (base ≡ State.Conductor) × (beside ≡ false))) }
{
    if is_same(now, base) {
        return true;
    }
    is_same(now, State::Tail) && is_same(base, State::Conductor) && !beside
}

// Whether all cells are calm.
fn is_calm(base: &[State], now: &[State], width: usize, ins: &[InCell]) -> bool
    requires sized { length base.now ≤ 1024 }
    requires wide { 0 < width }
    requires same_length { length now.now ≡ length base.now }
    ensures { IsTrue result → ((k : ℕ) → k < length base.now →
        IsCalmAt base.now now.now width ins.now k) }
{
    for (k, state) in now.iter().enumerate() {
        if !is_calm_cell(base[k], *state, is_beside_any(ins, k % width, k / width)) {
            return false;
        }
    }
    true
}

fn is_ready_cell(now: State, beside: bool) -> bool
    ensures { IsTrue result → ((now ≢ State.Head) ⊎ (beside ≡ false)) }
{
    if is_same(now, State::Head) {
        !beside
    } else {
        true
    }
}

// Whether no head is beside the input.
fn is_alone(now: &[State], width: usize, input: InCell) -> bool
    requires sized { length now.now ≤ 1024 }
    requires wide { 0 < width }
    ensures { IsTrue result → ((k : ℕ) → k < length now.now →
        IsDarkBeside now.now width input k) }
{
    for (k, state) in now.iter().enumerate() {
        if !is_ready_cell(*state, is_beside(input, k % width, k / width)) {
            return false;
        }
    }
    true
}

fn conducts(cells: &[State], width: usize, input: InCell) -> bool
    requires narrow { width < 65536 }
    ensures { IsTrue result → Conducts cells.now width input }
{
    is_same(state_at(cells, width, input.x, input.y), State::Conductor)
}

// Whether the input is ready.
fn is_ready_input(now: &[State], width: usize, input: InCell) -> bool
    requires sized { length now.now ≤ 1024 }
    requires wide { 0 < width }
    requires narrow { width < 65536 }
    ensures { IsTrue result → IsReadyInput now.now width input }
{
    conducts(now, width, input) && is_alone(now, width, input)
}

// Whether the input is ready, if its generation is this.
fn is_ready_if(now: &[State], width: usize, input: InCell, generation: usize) -> bool
    requires sized { length now.now ≤ 1024 }
    requires wide { 0 < width }
    requires narrow { width < 65536 }
    ensures { IsTrue result → input.generation ≡ generation → IsReadyInput now.now width input }
{
    if input.generation as usize == generation {
        return is_ready_input(now, width, input);
    }
    true
}

// Whether the inputs of a generation are ready.
fn are_ready(now: &[State], width: usize, ins: &[InCell], generation: usize) -> bool
    requires sized { length now.now ≤ 1024 }
    requires wide { 0 < width }
    requires narrow { width < 65536 }
    ensures { IsTrue result → AreInputsReady now.now width ins.now generation }
{
    for input in ins {
        if !is_ready_if(now, width, *input, generation) {
            return false;
        }
    }
    true
}

/// Returns the number that up to three bits make, the first of them lowest.
#[tactic(auto, using(crate::proofs::BitNumbers::number_of_three))]
pub fn number_of_bits(bits: &[bool]) -> usize
    requires few { length bits.now ≤ 3 }
    ensures is { result ≡ number_of_bits bits.now }
    ensures few { result < 8 }
{
    bit_value(bits, 0) + 2 * bit_value(bits, 1) + 4 * bit_value(bits, 2)
}

fn bit_value(bits: &[bool], i: usize) -> usize
    ensures is { result ≡ cond (flag_at bits.now i) 1 0 }
    ensures few { result ≤ 1 }
{
    if bit_at(bits, i) { 1 } else { 0 }
}

// Whether all ports are in time at a generation.
fn is_in_time(
    now: &[State],
    width: usize,
    ins: &[InCell],
    outs: &[OutCell],
    bits: &[bool],
    generation: usize,
) -> bool
    requires narrow { width < 65536 }
    requires few { length ins.now ≤ 3 }
    requires bits { length bits.now ≡ length ins.now }
    ensures { IsTrue result → ArePortsInTime (shown now.now width) ins.now bits.now outs.now
        generation }
{
    ins_in_time(now, width, ins, bits, generation)
        && outs_in_time(now, width, outs, number_of_bits(bits), generation)
}

// The generation after this one, which is 0 again at the gate's time.
fn next_time(time: usize, generation: usize) -> usize
    requires early { generation < time }
    ensures { result ≡ next_time time generation }
{
    if generation + 1 == time {
        0
    } else {
        generation + 1
    }
}

/// Returns whether the gate answers these bits in time; `now` and `next` are overwritten.
pub fn answers_in_time(
    base: &[State],
    width: usize,
    ins: &[InCell],
    outs: &[OutCell],
    time: usize,
    bits: &[bool],
    now: &mut [State],
    next: &mut [State],
) -> bool
    requires sized { IsSized base.now width ins.now time }
    requires cells { HasCells base.now width ins.now outs.now time }
    requires bits { length bits.now ≡ length ins.now }
    requires now_length { length now.old ≡ length base.now }
    requires next_length { length next.old ≡ length base.now }
    ensures { IsTrue result → AnswersInTime (window_gate base.now width ins.now outs.now time)
        bits.now }
{
    light(base, width, ins, bits, 0, now);
    for generation in 0..time {
        if !is_in_time(now, width, ins, outs, bits, generation) {
            return false;
        }
        if !are_ready(now, width, ins, next_time(time, generation)) {
            return false;
        }
        window_step(now, next, width);
        light(next, width, ins, bits, generation + 1, now);
    }
    is_calm(base, now, width, ins)
}

/// All choices of three bits, by the number that they make. Their first bits are all choices of fewer.
pub const CHOICES: [[bool; 3]; 8] = [
    [false, false, false],
    [true, false, false],
    [false, true, false],
    [true, true, false],
    [false, false, true],
    [true, false, true],
    [false, true, true],
    [true, true, true],
];

// Whether the gate answers all bits in time; `now` and `next` are overwritten.
fn always_in_time(
    base: &[State],
    width: usize,
    ins: &[InCell],
    outs: &[OutCell],
    time: usize,
    now: &mut [State],
    next: &mut [State],
) -> bool
    requires sized { IsSized base.now width ins.now time }
    requires cells { HasCells base.now width ins.now outs.now time }
    requires now_length { length now.old ≡ length base.now }
    requires next_length { length next.old ≡ length base.now }
    ensures { IsTrue result → ((bits : List Bool) → length bits ≡ length ins.now →
        AnswersInTime (window_gate base.now width ins.now outs.now time) bits) }
{
    let count = ins.len();
    for choice in &CHOICES {
        if !answers_in_time(base, width, ins, outs, time, &choice[..count], now, next) {
            return false;
        }
    }
    true
}

/// Returns whether the drawing fits a window, and the test's limits.
pub fn is_sized(cells: &[State], width: usize, ins: &[InCell], time: usize) -> bool
    ensures { IsTrue result → IsSized cells.now width ins.now time }
{
    0 < width
        && width < 65536
        && cells.len() % width == 0
        && cells.len() <= 1024
        && ins.len() <= 3
        && 3 <= time
}

fn is_unlit_cell(cell: State) -> bool
    ensures { IsTrue result → ((cell ≡ State.Empty) ⊎ (cell ≡ State.Conductor)) }
{
    is_same(cell, State::Empty) || is_same(cell, State::Conductor)
}

fn is_unlit(cells: &[State]) -> bool
    ensures { IsTrue result → All (λ cell. (cell ≡ State.Empty) ⊎
        (cell ≡ State.Conductor)) cells.now }
{
    for cell in cells {
        if !is_unlit_cell(*cell) {
            return false;
        }
    }
    true
}

fn has_output(cells: &[State], width: usize, out: OutCell, time: usize) -> bool
    requires narrow { width < 65536 }
    ensures { IsTrue result → ((shown cells.now width (pos out.x) (pos out.y) ≡ State.Conductor)
        × (out.delay < time)) }
{
    is_same(state_at(cells, width, out.x, out.y), State::Conductor) && (out.delay as usize) < time
}

fn has_outputs(cells: &[State], width: usize, outs: &[OutCell], time: usize) -> bool
    requires narrow { width < 65536 }
    ensures { IsTrue result → All (λ (out : OutCell). (shown cells.now width (pos out.x)
        (pos out.y) ≡ State.Conductor) × (out.delay < time)) outs.now }
{
    for out in outs {
        if !has_output(cells, width, *out, time) {
            return false;
        }
    }
    true
}

fn is_inside(size: usize, width: usize, input: InCell) -> bool
    requires narrow { width < 65536 }
    ensures { IsTrue result → IsInside size width input }
{
    let (x, y) = (input.x as usize, input.y as usize);
    x < width && y * width + x < size
}

// Whether the input's cell is a conductor of the drawing, and its generation below the time.
fn has_input(cells: &[State], width: usize, input: InCell, time: usize) -> bool
    requires narrow { width < 65536 }
    ensures { IsTrue result → (Conducts cells.now width input × IsInside (length cells.now) width
        input × (input.generation < time)) }
{
    conducts(cells, width, input)
        && is_inside(cells.len(), width, input)
        && (input.generation as usize) < time
}

fn has_inputs(cells: &[State], width: usize, ins: &[InCell], time: usize) -> bool
    requires narrow { width < 65536 }
    ensures { IsTrue result → ((i : ℕ) → i < length ins.now →
        (Conducts cells.now width (in_at ins.now i) × IsInside (length cells.now) width
        (in_at ins.now i) × ((in_at ins.now i).generation < time))) }
{
    for input in ins {
        if !has_input(cells, width, *input, time) {
            return false;
        }
    }
    true
}

/// Returns whether the cells are conductors or empty, and conductors at the ports, whose
/// generations are below the time.
pub fn has_cells(
    cells: &[State],
    width: usize,
    ins: &[InCell],
    outs: &[OutCell],
    time: usize,
) -> bool
    requires narrow { width < 65536 }
    ensures { IsTrue result → HasCells cells.now width ins.now outs.now time }
{
    if !is_unlit(cells) {
        return false;
    }
    if !has_inputs(cells, width, ins, time) {
        return false;
    }
    has_outputs(cells, width, outs, time)
}

/// Returns whether a drawing keeps the law of gates: rows of `width` cells, at most 1,024 in all,
/// with up to three inputs, each lit at its own generation if its bit is 1; the outputs answer each
/// row of bits by their tables, after their delays, and the gate takes new bits after `time`
/// generations. Uses that overlap are not tested: `time` must be above each delay.
pub fn keeps_law(
    cells: &[State],
    width: usize,
    ins: &[InCell],
    outs: &[OutCell],
    time: usize,
) -> bool
    ensures { IsTrue result → KeepsGateLaw (window_gate cells.now width ins.now outs.now time) }
{
    if !is_sized(cells, width, ins, time) {
        return false;
    }
    if !has_cells(cells, width, ins, outs, time) {
        return false;
    }
    let size = cells.len();
    let mut now = [State::Empty; 1024];
    let mut next = [State::Empty; 1024];
    always_in_time(
        cells,
        width,
        ins,
        outs,
        time,
        &mut now[..size],
        &mut next[..size],
    )
}
