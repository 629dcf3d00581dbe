// The tests of drawings.
ghost use Rattle.std.specs.Prelude.{◌≡◌, ◌≢◌, ◌⊎◌, ◌<◌, ◌≤◌, ℕ, Bool, List, get_or, length, true, IsTrue};
ghost use Rattle.lists.specs.Items.{flag_at};
ghost use Rattle.gate_laws.specs.Gates.{KeepsGateLaw};
ghost use Rattle.gate_laws.specs.Drawings.{number_of_bits, in_at};
ghost use Rattle.gate_laws.specs.Crossings.{KeepsCrossingLaw};
ghost use Rattle.gate_library.specs.Lawful.{own_cell, gate_together, crossing_apart, answer_bit, no_out, KeepsLawOf, SaysAnswer, IsLawful};

use crate::ports::in_at;
use crate::{Answer, GateDrawing, Timing};
use gate_laws::{CHOICES, InCell, OutCell, keeps_crossing_law, keeps_law, number_of_bits};

fn bit_at(bits: &[bool], i: u32) -> bool
    ensures { result ≡ flag_at bits.now i }
{
    match bits.get(i as usize) {
        Some(bit) => *bit,
        None => false,
    }
}

/// Returns the bit of an answer to these bits of inputs.
pub fn answer_of(bits: &[bool], answer: Answer) -> bool
    ensures { result ≡ answer_bit bits.now answer }
{
    match answer {
        Answer::Copy(i) => bit_at(bits, i),
        Answer::Or(i, j) => bit_at(bits, i) | bit_at(bits, j),
        Answer::Xor(i, j) => {
            let (a, b) = (bit_at(bits, i), bit_at(bits, j));
            (a | b) & !(a & b)
        }
        Answer::AndNot(i, j) => bit_at(bits, i) & !bit_at(bits, j),
    }
}

fn says_row(out: OutCell, bits: &[bool], answer: Answer) -> bool
    requires few { length bits.now ≤ 3 }
    ensures { IsTrue result → flag_at out.table (number_of_bits bits.now)
        ≡ answer_bit bits.now answer }
{
    out.table[number_of_bits(bits)] == answer_of(bits, answer)
}

fn says_together(out: OutCell, count: usize, answer: Answer) -> bool
    requires few { count ≤ 3 }
    ensures { IsTrue result → SaysAnswer Timing.Together count out answer }
{
    for choice in &CHOICES {
        if !says_row(out, &choice[..count], answer) {
            return false;
        }
    }
    true
}

fn says_apart(out: OutCell, answer: Answer) -> bool
    ensures { IsTrue result → ((answer ≡ Answer.Copy 0) × (flag_at out.table 1 ≡ true))
        ⊎ ((answer ≡ Answer.Copy 1) × (flag_at out.table 2 ≡ true)) }
{
    match answer {
        Answer::Copy(0) => out.table[1],
        Answer::Copy(1) => out.table[2],
        _ => false,
    }
}

fn says(timing: Timing, count: usize, out: OutCell, answer: Answer) -> bool
    requires few { count ≤ 3 }
    ensures { IsTrue result → SaysAnswer timing count out answer }
{
    match timing {
        Timing::Together => says_together(out, count, answer),
        Timing::Apart => says_apart(out, answer),
    }
}

fn answer_at(answers: &[Answer], o: usize) -> Answer
    ensures { result ≡ get_or answers.now o (Answer.Copy 0) }
{
    match answers.get(o) {
        Some(answer) => *answer,
        None => Answer::Copy(0),
    }
}

/// Returns whether the tables of outputs say what their answers do.
pub fn all_say(timing: Timing, count: usize, outs: &[OutCell], answers: &[Answer]) -> bool
    requires few { count ≤ 3 }
    ensures { IsTrue result → ((o : ℕ) → o < length outs.now → SaysAnswer timing count
        (get_or outs.now o no_out) (get_or answers.now o (Answer.Copy 0))) }
{
    for (o, out) in outs.iter().enumerate() {
        if !says(timing, count, *out, answer_at(answers, o)) {
            return false;
        }
    }
    true
}

fn is_elsewhere(a: InCell, b: InCell) -> bool
    ensures { IsTrue result → own_cell a ≢ own_cell b }
{
    a.x != b.x || a.y != b.y
}

// Whether no input before this one is in its cell.
fn is_first_there(ins: &[InCell], i: usize) -> bool
    requires inside { i < length ins.now }
    ensures { IsTrue result → ((j : ℕ) → j < i →
        own_cell (in_at ins.now i) ≢ own_cell (in_at ins.now j)) }
{
    for j in 0..i {
        if !is_elsewhere(ins[i], ins[j]) {
            return false;
        }
    }
    true
}

/// Returns whether no two inputs are one cell.
pub fn are_in_own_cells(ins: &[InCell]) -> bool
    ensures { IsTrue result → ((i : ℕ) → i < length ins.now → (j : ℕ) → j < i →
        own_cell (in_at ins.now i) ≢ own_cell (in_at ins.now j)) }
{
    for i in 0..ins.len() {
        if !is_first_there(ins, i) {
            return false;
        }
    }
    true
}

fn keeps_together(d: &GateDrawing) -> bool
    ensures { IsTrue result → KeepsGateLaw (gate_together d.now) }
{
    let cells = d.cells.as_slice();
    let ins = d.ins.as_slice();
    let outs = d.outs.as_slice();
    keeps_law(cells, d.width as usize, ins, outs, d.time as usize)
}

fn keeps_apart(d: &GateDrawing) -> bool
    ensures { IsTrue result → KeepsCrossingLaw (crossing_apart d.now) }
{
    let cells = d.cells.as_slice();
    let ins = d.ins.as_slice();
    let outs = d.outs.as_slice();
    let first = in_at(ins, 0);
    let second = in_at(ins, 1);
    keeps_crossing_law(
        cells,
        d.width as usize,
        (first.x, first.y),
        (second.x, second.y),
        outs,
        d.time as usize,
    )
}

fn keeps_its_law(d: &GateDrawing) -> bool
    ensures { IsTrue result → KeepsLawOf d.now.timing d.now }
{
    match d.timing {
        Timing::Together => keeps_together(d),
        Timing::Apart => d.ins.len() == 2 && keeps_apart(d),
    }
}

/// Returns whether a drawing keeps its law, no two of its inputs are one cell, and its answers are
/// those of its tables.
pub fn is_lawful(d: &GateDrawing) -> bool
    ensures { IsTrue result → IsLawful d.now }
{
    if d.width == 0 {
        return false;
    }
    if d.ins.len() > 3 {
        return false;
    }
    if !keeps_its_law(d) {
        return false;
    }
    let ins = d.ins.as_slice();
    let outs = d.outs.as_slice();
    let answers = d.answers.as_slice();
    if !are_in_own_cells(ins) {
        return false;
    }
    all_say(d.timing, ins.len(), outs, answers)
}
