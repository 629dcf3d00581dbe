// The drawings of all kinds of gates.
ghost use Rattle.std.specs.Prelude.{◌≡◌, false, length, IfOk};

use crate::gate::{Answer, GateDrawing};
use crate::kind::{GateKind, Turn};
use crate::sketch::{Sketch, sketch_of};
use crate::tables::table_of;
use crate::turning::{find, letter_at, size_of, width_of};
use gate_laws::{InCell, OutCell};
use lists::{List, OutOfMemory};
use std::alloc::Global;
use ww_rule::State;

fn state_of(letter: u8) -> State {
    if letter == b'.' {
        State::Empty
    } else {
        State::Conductor
    }
}

// Adds the cells of a sketch, and answers whether memory ran out.
fn add_cells(cells: &mut Vec<State>, sketch: &Sketch, turn: Turn) -> bool {
    for cell in 0..size_of(sketch) {
        if cells.push(state_of(letter_at(sketch, turn, cell))).is_err() {
            return true;
        }
    }
    false
}

// Adds the inputs of a sketch, which are the letters from `a` on, and answers whether memory ran out.
fn add_ins(ins: &mut Vec<InCell>, sketch: &Sketch, turn: Turn) -> bool {
    let mut letter = b'a';
    for time in sketch.ins {
        let (x, y) = find(sketch, turn, letter);
        let generation = *time;
        if ins.push(InCell { x, y, generation }).is_err() {
            return true;
        }
        letter = letter.saturating_add(1);
    }
    false
}

fn out_of(sketch: &Sketch, turn: Turn, out: (u8, Answer)) -> OutCell {
    let (letter, answer) = out;
    let (x, y) = find(sketch, turn, letter);
    OutCell {
        x,
        y,
        delay: sketch.delay,
        table: table_of(answer),
    }
}

// Adds the outputs of a sketch, and the answer of each, and answers whether memory ran out.
fn add_outs(outs: &mut Vec<OutCell>, answers: &mut Vec<Answer>, sketch: &Sketch, turn: Turn) -> bool
    requires same { length outs.old.items ≡ length answers.old.items }
    ensures { result ≡ false → length answers.new.items ≡ length outs.new.items }
{
    for out in sketch.outs {
        let is_short = outs.push(out_of(sketch, turn, *out)).is_err();
        if is_short | answers.push(out.1).is_err() {
            return true;
        }
    }
    false
}

/// Makes the drawing of a kind of gate, with one answer for each output.
pub fn drawing_of(alloc: Global, kind: GateKind) -> Result<GateDrawing, OutOfMemory>
    ensures { IfOk result (λ drawing. length drawing.answers ≡ length drawing.outs) }
{
    let (sketch, turn) = (sketch_of(kind.shape), kind.turn);
    let (mut cells, mut ins) = (Vec::new(alloc), Vec::new(alloc));
    let (mut outs, mut answers) = (Vec::new(alloc), Vec::new(alloc));
    let is_short = add_cells(&mut cells, sketch, turn)
        | add_ins(&mut ins, sketch, turn)
        | add_outs(&mut outs, &mut answers, sketch, turn);
    let drawing = GateDrawing {
        width: width_of(sketch, turn),
        cells: List::of(cells),
        ins: List::of(ins),
        outs: List::of(outs),
        answers: List::of(answers),
        time: sketch.time,
        timing: sketch.timing,
    };
    if is_short {
        drop(drawing);
        Err(OutOfMemory::NoMemory)
    } else {
        Ok(drawing)
    }
}
