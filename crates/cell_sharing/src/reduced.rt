// Cells that need not be made: one of their operands, constant 0 or a cell that is there has their
// bit.
ghost use Rattle.std.specs.Prelude.{◌≡◌, true, length, IsTrue, IfOk, IfSome};
ghost use Rattle.cell_core.specs.declared.cells.Src.TheVariants.{Zero};
ghost use Rattle.cell_core.specs.declared.cells.Cell.TheVariants.{Or, Xor, AndNot};
ghost use Rattle.cell_core.specs.Sources.{reads_there, reads_one};
ghost use Rattle.cell_core.specs.Meaning.{cell_bits, cell_bit};
ghost use Rattle.cell_sharing.specs.Grown.{Answers};
ghost use Rattle.cell_sharing.specs.Reduced.{StandsFor, HaveSameBit};

use crate::shared::{Places, find_cell, share};
use cell_core::{Cell, CellError, CellList, Src, is_same_src};
use std::alloc::Global;

fn is_zero(src: Src) -> bool
    ensures { IsTrue result → src ≡ Zero }
{
    match src {
        Src::Zero => true,
        _ => false,
    }
}

#[tactic(auto, using(crate::proofs::Spared::same_or, crate::proofs::Spared::or_zero, crate::proofs::Spared::zero_or))]
fn reduced_or(a: Src, b: Src) -> Option<Src>
    ensures { IfSome result (StandsFor (Or a b)) }
{
    if is_same_src(a, b) {
        return Some(a);
    }
    if is_zero(b) {
        return Some(a);
    }
    if is_zero(a) {
        return Some(b);
    }
    None
}

#[tactic(auto, using(crate::proofs::Spared::same_xor, crate::proofs::Spared::xor_zero, crate::proofs::Spared::zero_xor))]
fn reduced_xor(a: Src, b: Src) -> Option<Src>
    ensures { IfSome result (StandsFor (Xor a b)) }
{
    if is_same_src(a, b) {
        return Some(Src::Zero);
    }
    if is_zero(b) {
        return Some(a);
    }
    if is_zero(a) {
        return Some(b);
    }
    None
}

#[tactic(auto, using(crate::proofs::Spared::same_and_not, crate::proofs::Spared::and_not_zero, crate::proofs::Spared::zero_and_not, crate::proofs::Spared::and_not_one))]
fn reduced_and_not(a: Src, b: Src) -> Option<Src>
    ensures { IfSome result (StandsFor (AndNot a b)) }
{
    if is_same_src(a, b) {
        return Some(Src::Zero);
    }
    if is_zero(b) {
        return Some(a);
    }
    if is_zero(a) {
        return Some(Src::Zero);
    }
    if b.is_one() {
        return Some(Src::Zero);
    }
    None
}

// An operand or constant 0, if it has the cell's bit.
fn reduced(cell: Cell) -> Option<Src>
    ensures { IfSome result (StandsFor cell) }
{
    match cell {
        Cell::Or(a, b) => reduced_or(a, b),
        Cell::Xor(a, b) => reduced_xor(a, b),
        Cell::AndNot(a, b) => reduced_and_not(a, b),
    }
}

// The cell with its operands exchanged, if that makes no difference.
#[tactic(auto, using(crate::proofs::Spared::turned_or, crate::proofs::Spared::turned_xor))]
fn turned(cell: Cell) -> Cell
    ensures { HaveSameBit result cell }
{
    match cell {
        Cell::Or(a, b) => Cell::Or(b, a),
        Cell::Xor(a, b) => Cell::Xor(b, a),
        Cell::AndNot(a, b) => Cell::AndNot(a, b),
    }
}

/// A source with the bit of a cell, which is added only if nothing that is known to be there has
/// it.
pub fn settle(
    list: &mut CellList,
    places: &mut Places,
    alloc: Global,
    cell: Cell,
) -> Result<Src, CellError>
    requires { IsTrue (reads_there list.old.inputs (length list.old.starts)
        (length list.old.cells) cell) }
    ensures { IfOk result (λ src.
        Answers list.old list.new 1 (reads_one cell ≡ true) src (λ inputs state.
        cell_bit inputs state (cell_bits inputs state list.old.cells) cell)) }
{
    if let Some(src) = reduced(cell) {
        return Ok(src);
    }
    if let Some(src) = find_cell(list, places, turned(cell)) {
        return Ok(src);
    }
    share(list, places, alloc, cell)
}
