// Marks at the cells that are among some sources.
ghost use Rattle.std.specs.Prelude.{◌≡◌, ◌∷◌, ◌++◌, false, true, cond, map, replicate, length, slice_get, flat_map, IfOk, OnOk};
ghost use Rattle.cell_polarity.specs.Low.{zero_in};
ghost use Rattle.cell_polarity.specs.Marks.{marks_with, AreMarked};
ghost use Rattle.cell_polarity.specs.Needed.{cell_operands, with_operands, needed};

use crate::PolarityError;
use crate::low::zero_in;
use cell_core::{Cell, CellList, Src};
use std::alloc::Global;

// Marks a source, if it is a cell.
fn mark(marks: &mut [bool], src: Src)
    ensures { marks.new ≡ marks_with marks.old src }
{
    if let Src::Cell(i) = src {
        if (i as usize) < marks.len() {
            marks[i as usize] = true;
        }
    }
}

// Marks a source, if it is a cell with a flag.
fn mark_flagged(marks: &mut [bool], flags: &[bool], src: Src)
    ensures { marks.new ≡ cond (zero_in flags.now src) (marks_with marks.old src) marks.old }
{
    if zero_in(flags, src) {
        mark(marks, src);
    }
}

// Marks the cells that are among the sources and have a flag.
#[tactic(auto, using(crate::proofs::Marking::marks_more, crate::proofs::Marking::no_marks, crate::proofs::Marking::all_marked))]
fn mark_all(marks: &mut [bool], flags: &[bool], sources: &[Src])
    requires { marks.old ≡ replicate (length flags.now) false }
    ensures { AreMarked flags.now sources.now marks.new }
{
    for src in sources {
        mark_flagged(marks, flags, *src);
    }
}

// Marks the cells that are among the sources and have a flag, in a new table.
fn marks_of(alloc: Global, flags: &[bool], sources: &[Src]) -> Result<Vec<bool>, PolarityError>
    ensures { IfOk result (λ marks. AreMarked flags.now sources.now marks.items) }
{
    let mut marks = vec![in alloc; false; flags.len()]?;
    mark_all(&mut marks, flags, sources);
    Ok(marks)
}

// Adds a source and what its cell reads.
fn push_cell(found: &mut Vec<Src>, src: Src, cell: Cell) -> Result<(), PolarityError>
    ensures { OnOk result (found.new.items ≡ found.old.items ++ src ∷ cell_operands cell) }
{
    match cell {
        Cell::Or(a, b) | Cell::Xor(a, b) | Cell::AndNot(a, b) => {
            found.push(src)?;
            found.push(a)?;
            found.push(b)?;
        }
    }
    Ok(())
}

// The cell with a number, if there is one.
fn cell_at(cells: &[Cell], number: u32) -> Option<Cell>
    ensures { result ≡ slice_get cells.now number }
{
    cells.get(number as usize).copied()
}

// Adds the source and what its cell reads, if it is one of these cells.
fn push_with_operands(found: &mut Vec<Src>, cells: &[Cell], src: Src) -> Result<(), PolarityError>
    ensures { OnOk result (found.new.items ≡ found.old.items ++ with_operands cells.now src) }
{
    let Src::Cell(i) = src else {
        return Ok(());
    };
    match cell_at(cells, i) {
        Some(cell) => push_cell(found, src, cell),
        None => Ok(()),
    }
}

// Adds those of the sources that are cells, with what these cells read.
fn push_all_with_operands(
    found: &mut Vec<Src>,
    cells: &[Cell],
    sources: &[Src],
) -> Result<(), PolarityError>
    ensures { OnOk result (
        found.new.items ≡ found.old.items ++ flat_map (with_operands cells.now) sources.now
        ) }
{
    for src in sources {
        push_with_operands(found, cells, *src)?;
    }
    Ok(())
}

// Adds the sources that must have their own bits.
fn push_needed(found: &mut Vec<Src>, list: &CellList, kept: &[Src]) -> Result<(), PolarityError>
    ensures { OnOk result (found.new.items ≡ found.old.items ++ needed list.now kept.now) }
{
    found.extend_from_slice(list.outs.as_slice())?;
    found.extend_from_slice(list.latches.as_slice())?;
    found.extend_from_slice(list.nets.as_slice())?;
    push_all_with_operands(found, list.cells.as_slice(), kept)
}

// Returns the sources that must have their own bits.
fn needed(alloc: Global, list: &CellList, kept: &[Src]) -> Result<Vec<Src>, PolarityError>
    ensures { IfOk result (λ found. found.items ≡ needed list.now kept.now) }
{
    let mut found = Vec::new(alloc);
    push_needed(&mut found, list, kept)?;
    Ok(found)
}

/// Marks the cells that have a flag and must have their own bits.
pub fn marks_of_needed(
    alloc: Global,
    list: &CellList,
    kept: &[Src],
    flags: &[bool],
) -> Result<Vec<bool>, PolarityError>
    ensures { IfOk result (λ marks.
        AreMarked flags.now (needed list.now kept.now) marks.items) }
{
    let needed = needed(alloc, list, kept)?;
    marks_of(alloc, flags, &needed)
}

/// Marks the cells that are kept; there are as many cells as there are flags.
pub fn marks_of_kept(
    alloc: Global,
    kept: &[Src],
    flags: &[bool],
) -> Result<Vec<bool>, PolarityError>
    ensures { IfOk result (λ marks.
        AreMarked (map (λ flag. true) flags.now) kept.now marks.items) }
{
    let all = vec![in alloc; true; flags.len()]?;
    marks_of(alloc, &all, kept)
}
