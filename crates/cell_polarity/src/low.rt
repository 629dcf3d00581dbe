// The low cells: each source that is 1 at zero is kept as its complement.
ghost use Rattle.std.specs.Prelude.{◌≡◌, ◌<◌, ◌+◌, ◌&&◌, not, cond, [], length, IfOk, OnOk};
ghost use Rattle.cell_core.specs.Meaning.{cell_bit};
ghost use Rattle.cell_polarity.specs.Low.{low_of, zero_in, cells_in, low_or, low_xor, low_and_not, low_bit, IsLowSource, ReadLow, AnswersLow, AreLow};

use crate::PolarityError;
use cell_core::{Cell, CellList, Src};
use cell_sharing::{Places, and, and_not, or, settle};
use lists::List;
use std::alloc::Global;

/// An operand: its low source, and whether the operand is 1 at zero.
#[derive(Clone, Copy)]
struct Operand {
    low: Src,
    one: bool,
}

// The low source of an OR. Where an operand is 1 at zero, so is the OR.
fn or_of(
    list: &mut CellList,
    places: &mut Places,
    alloc: Global,
    a: Operand,
    b: Operand,
) -> Result<Src, PolarityError>
    requires first { IsLowSource list.old a.low }
    requires second { IsLowSource list.old b.low }
    ensures { IfOk result (λ src. AnswersLow list.old list.new (cond (a.one && b.one) 2 1) src
        (low_or a.one b.one a.low b.low list.old.cells)) }
{
    match (a.one, b.one) {
        (false, false) => or(list, places, alloc, a.low, b.low),
        (false, true) => and_not(list, places, alloc, b.low, a.low),
        (true, false) => and_not(list, places, alloc, a.low, b.low),
        (true, true) => and(list, places, alloc, a.low, b.low),
    }
}

// The low source of an XOR, which is that of the low operands.
fn xor_of(
    list: &mut CellList,
    places: &mut Places,
    alloc: Global,
    a: Operand,
    b: Operand,
) -> Result<Src, PolarityError>
    requires first { IsLowSource list.old a.low }
    requires second { IsLowSource list.old b.low }
    ensures { IfOk result (λ src. AnswersLow list.old list.new 1 src
        (low_xor a.one b.one a.low b.low list.old.cells)) }
{
    settle(list, places, alloc, Cell::Xor(a.low, b.low))
}

// The low source of an AND-NOT.
fn and_not_of(
    list: &mut CellList,
    places: &mut Places,
    alloc: Global,
    a: Operand,
    b: Operand,
) -> Result<Src, PolarityError>
    requires first { IsLowSource list.old a.low }
    requires second { IsLowSource list.old b.low }
    ensures { IfOk result (λ src. AnswersLow list.old list.new (cond (not a.one && b.one) 2 1) src
        (low_and_not a.one b.one a.low b.low list.old.cells)) }
{
    match (a.one, b.one) {
        (false, false) => and_not(list, places, alloc, a.low, b.low),
        (false, true) => and(list, places, alloc, a.low, b.low),
        (true, false) => or(list, places, alloc, a.low, b.low),
        (true, true) => and_not(list, places, alloc, b.low, a.low),
    }
}

// The source that stands for a source, if these stand for the cells.
fn low_of(lows: &[Src], src: Src) -> Src
    ensures { result ≡ low_of lows.now src }
{
    match src {
        Src::Cell(i) => match lows.get(i as usize) {
            Some(low) => *low,
            None => Src::Zero,
        },
        Src::Input(_) | Src::Latch(_) | Src::Zero => src,
        Src::One => Src::Zero,
    }
}

/// Returns the bit of a source at zero, if the cells have these.
pub fn zero_in(zeros: &[bool], src: Src) -> bool
    ensures { result ≡ zero_in zeros.now src }
{
    match src {
        Src::Cell(i) => match zeros.get(i as usize) {
            Some(zero) => *zero,
            None => false,
        },
        Src::Input(_) | Src::Latch(_) | Src::Zero => false,
        Src::One => true,
    }
}

// The bit of a cell at zero.
fn cell_zero(zeros: &[bool], cell: Cell) -> bool
    ensures { result ≡ cell_bit [] [] zeros.now cell }
{
    match cell {
        Cell::Or(a, b) => zero_in(zeros, a) || zero_in(zeros, b),
        Cell::Xor(a, b) => {
            let first = zero_in(zeros, a);
            let second = zero_in(zeros, b);
            (first || second) && !(first && second)
        }
        Cell::AndNot(a, b) => zero_in(zeros, a) && !zero_in(zeros, b),
    }
}

fn operand_of(zeros: &[bool], lows: &[Src], src: Src) -> Operand
    ensures low { result.low ≡ low_of lows.now src }
    ensures one { result.one ≡ zero_in zeros.now src }
{
    Operand {
        low: low_of(lows, src),
        one: zero_in(zeros, src),
    }
}

// The low source of a cell.
fn cell_low(
    list: &mut CellList,
    places: &mut Places,
    alloc: Global,
    zeros: &[bool],
    lows: &[Src],
    cell: Cell,
) -> Result<Src, PolarityError>
    requires { ReadLow list.old lows.now cell }
    ensures { IfOk result (λ src. AnswersLow list.old list.new (cells_in zeros.now cell) src
        (low_bit zeros.now lows.now cell list.old.cells)) }
{
    match cell {
        Cell::Or(a, b) => {
            let first = operand_of(zeros, lows, a);
            let second = operand_of(zeros, lows, b);
            or_of(list, places, alloc, first, second)
        }
        Cell::Xor(a, b) => {
            let first = operand_of(zeros, lows, a);
            let second = operand_of(zeros, lows, b);
            xor_of(list, places, alloc, first, second)
        }
        Cell::AndNot(a, b) => {
            let first = operand_of(zeros, lows, a);
            let second = operand_of(zeros, lows, b);
            and_not_of(list, places, alloc, first, second)
        }
    }
}

/// The low cells of a list: `lows` are the sources that stand for its cells, and `zeros` their bits
/// at zero.
#[derive(Drop)]
pub struct Lowered {
    pub list: CellList,
    pub places: Places,
    pub zeros: Vec<bool>,
    pub lows: Vec<Src>,
}

// A list with the inputs and latches of another, and no cells.
fn begun(alloc: Global, old: &CellList) -> Result<CellList, PolarityError>
    ensures inputs { IfOk result (λ list. list.inputs ≡ old.now.inputs) }
    ensures starts { IfOk result (λ list. list.starts ≡ old.now.starts) }
    ensures cells { IfOk result (λ list. list.cells ≡ []) }
{
    let starts = old.starts.as_slice().to_vec(alloc)?;
    let latches = vec![in alloc; Src::Zero; old.starts.len()]?;
    Ok(CellList {
        inputs: old.inputs,
        cells: List::of(Vec::new(alloc)),
        outs: List::of(Vec::new(alloc)),
        latches: List::of(latches),
        starts: List::of(starts),
        nets: List::of(Vec::new(alloc)),
    })
}

impl Lowered {
    /// No low cells yet.
    pub fn begin(alloc: Global, old: &CellList) -> Result<Lowered, PolarityError>
        ensures { IfOk result (λ low.
            AreLow old.now 0 low.zeros.items low.list low.lows.items) }
    {
        let list = begun(alloc, old)?;
        Ok(Lowered {
            list,
            places: Places::new(alloc),
            zeros: Vec::new(alloc),
            lows: Vec::new(alloc),
        })
    }

    // Adds the low cells for the next cell, which has this number.
    fn add(&mut self, alloc: Global, old: &CellList, number: usize) -> Result<(), PolarityError>
        requires number { number < length old.now.cells }
        requires low { AreLow old.now number self.old.zeros.items self.old.list self.old.lows.items }
        ensures { OnOk result (
            AreLow old.now (number + 1) self.new.zeros.items self.new.list self.new.lows.items
            ) }
    {
        let cell = *old.cells.get(number);
        let zero = cell_zero(&self.zeros, cell);
        let low = cell_low(
            &mut self.list,
            &mut self.places,
            alloc,
            &self.zeros,
            &self.lows,
            cell,
        )?;
        self.zeros.push(zero)?;
        self.lows.push(low)?;
        Ok(())
    }
}

/// Adds the low cells of a list.
pub fn lower(alloc: Global, old: &CellList, low: &mut Lowered) -> Result<(), PolarityError>
    requires { AreLow old.now 0 low.old.zeros.items low.old.list low.old.lows.items }
    ensures { OnOk result (
        AreLow old.now (length old.now.cells) low.new.zeros.items low.new.list low.new.lows.items
        ) }
{
    for number in 0..old.cells.len() {
        low.add(alloc, old, number)?;
    }
    Ok(())
}
