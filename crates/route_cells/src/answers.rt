// The sources of gates' outputs.
ghost use Rattle.std.specs.Prelude.{◌≡◌, ◌<◌, ℕ, Some, length, slice_get, IsTrue};
ghost use Rattle.cell_core.specs.declared.cells.Src.TheVariants.{Cell as Made};
ghost use Rattle.routed_circuits.specs.Runs.{src_at};
ghost use Rattle.gate_library.specs.Lawful.{answer_at};
ghost use Rattle.route_tables.specs.Runs.{IsAnsweredBy};

use cell_core::{Cell, CellList, Src, is_same_cell, is_same_src};
use gate_library::{Answer, GateDrawing};
use route_tables::src_at;

// Whether the source is this cell of the list.
fn is_cell(list: &CellList, src: Src, cell: Cell) -> bool
    ensures { IsTrue result → (n : ℕ) × (src ≡ Made n) × (slice_get list.now.cells n ≡ Some cell) }
{
    let Src::Cell(n) = src else {
        return false;
    };
    match list.cells.as_slice().get(n as usize) {
        Some(there) => is_same_cell(*there, cell),
        None => false,
    }
}

/// Returns whether the source is the answer to those of the inputs.
pub fn is_answered_by(list: &CellList, ins: &[Src], answer: Answer, out: Src) -> bool
    ensures { IsTrue result → IsAnsweredBy list.now ins.now answer out }
{
    match answer {
        Answer::Copy(i) => is_same_src(out, src_at(ins, i as usize)),
        Answer::Or(i, j) => {
            is_cell(
                list,
                out,
                Cell::Or(src_at(ins, i as usize), src_at(ins, j as usize)),
            )
        }
        Answer::Xor(i, j) => {
            is_cell(
                list,
                out,
                Cell::Xor(src_at(ins, i as usize), src_at(ins, j as usize)),
            )
        }
        Answer::AndNot(i, j) => {
            is_cell(
                list,
                out,
                Cell::AndNot(src_at(ins, i as usize), src_at(ins, j as usize)),
            )
        }
    }
}

// The answer with a number.
fn answer_at(drawing: &GateDrawing, o: usize) -> Answer
    ensures { result ≡ answer_at drawing.now o }
{
    let answers = drawing.answers.as_slice();
    if o < answers.len() {
        answers[o]
    } else {
        Answer::Copy(0)
    }
}

/// Returns whether each output's source is the answer to those of the inputs.
pub fn are_answered(list: &CellList, drawing: &GateDrawing, ins: &[Src], outs: &[Src]) -> bool
    ensures { IsTrue result → ((o : ℕ) → o < length outs.now →
        IsAnsweredBy list.now ins.now (answer_at drawing.now o) (src_at outs.now o)) }
{
    for o in 0..outs.len() {
        if !is_answered_by(list, ins, answer_at(drawing, o), src_at(outs, o)) {
            return false;
        }
    }
    true
}
