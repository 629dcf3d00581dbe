// The high cells: they give sources that are 1 at zero their own bits again, where these are
// needed.
ghost use Rattle.std.specs.Prelude.{◌≡◌, true, length, map, IfOk, IsTrue};
ghost use Rattle.cell_core.specs.Sources.{reads_there};
ghost use Rattle.cell_meaning.specs.Moved.{goes_to};
ghost use Rattle.cell_meaning.specs.Same.{cell_over};
ghost use Rattle.cell_sharing.specs.Grown.{HasSource};
ghost use Rattle.cell_polarity.specs.Low.{AreLow};
ghost use Rattle.cell_polarity.specs.Marks.{AreMarked};
ghost use Rattle.cell_polarity.specs.Needed.{needed};
ghost use Rattle.cell_polarity.specs.Raised.{IsRaised, AreRaised, AreGrown};

use crate::PolarityError;
use crate::low::{Lowered, lower};
use crate::marks::{marks_of_kept, marks_of_needed};
use cell_core::{Cell, CellList, Src};
use cell_sharing::{Places, settle, share};
use std::alloc::Global;

// Where a source goes: to its new one, or nowhere if it has none.
fn gone(news: &[Option<Src>], src: Src) -> Src
    ensures { result ≡ goes_to news.now src }
{
    match src {
        Src::Cell(i) => match news.get(i as usize) {
            Some(Some(new)) => *new,
            _ => src,
        },
        Src::Input(_) | Src::Latch(_) | Src::One | Src::Zero => src,
    }
}

// The cell over the sources to which its own go.
fn cell_gone(news: &[Option<Src>], cell: Cell) -> Cell
    ensures { result ≡ cell_over (goes_to news.now) cell }
{
    match cell {
        Cell::Or(a, b) => Cell::Or(gone(news, a), gone(news, b)),
        Cell::Xor(a, b) => Cell::Xor(gone(news, a), gone(news, b)),
        Cell::AndNot(a, b) => Cell::AndNot(gone(news, a), gone(news, b)),
    }
}

/// Returns where sources go.
pub fn all_gone(
    alloc: Global,
    news: &[Option<Src>],
    sources: &[Src],
) -> Result<Vec<Src>, PolarityError>
    ensures { IfOk result (λ found. found.items ≡ map (goes_to news.now) sources.now) }
{
    let mut found = Vec::with_capacity(alloc, sources.len())?;
    for src in sources {
        found.push(gone(news, *src))?;
    }
    Ok(found)
}

// What is known of a cell: its low source, whether it is 1 at zero, whether its own bit is needed
// although it is 1 at zero, and whether it stays the cell that it is.
#[derive(Clone, Copy)]
struct Known {
    low: Src,
    zero: bool,
    wanted: bool,
    kept: bool,
}

// The source with the own bit of a cell, if that is needed or is the low one. `own` is the cell over
// new operands.
fn raise(
    list: &mut CellList,
    places: &mut Places,
    alloc: Global,
    known: Known,
    own: Cell,
) -> Result<Option<Src>, PolarityError>
    requires low { HasSource list.old known.low }
    requires own { known.kept ≡ true → reads_there list.old.inputs (length list.old.starts)
        (length list.old.cells) own ≡ true }
    ensures { IfOk result (λ by.
        IsRaised list.old list.new known.low known.zero known.wanted known.kept own by) }
{
    if known.kept {
        return Ok(Some(share(list, places, alloc, own)?));
    }
    if !known.zero {
        return Ok(Some(known.low));
    }
    if !known.wanted {
        return Ok(None);
    }
    Ok(Some(settle(list, places, alloc, Cell::AndNot(Src::One, known.low))?))
}

// Adds the high cells to the low ones, and returns for each cell of the old list the source with its
// own bit, if it has one. `marks` are the needed cells that are 1 at zero, and `stays` the kept ones.
fn raise_all(
    alloc: Global,
    old: &CellList,
    kept: &[Src],
    low: &mut Lowered,
    marks: &[bool],
    stays: &[bool],
) -> Result<Vec<Option<Src>>, PolarityError>
    requires low { AreLow old.now (length old.now.cells) low.old.zeros.items low.old.list
        low.old.lows.items }
    requires marks { AreMarked low.old.zeros.items (needed old.now kept.now) marks.now }
    requires stays { AreMarked (map (λ zero. true) low.old.zeros.items) kept.now stays.now }
    ensures { IfOk result (λ news. AreRaised old.now low.old.list kept.now low.old.zeros.items
        marks.now stays.now (length old.now.cells) low.new.list news.items) }
{
    let _kept = kept;
    let mut news = vec![in alloc; None; old.cells.len()]?;
    for k in 0..old.cells.len() {
        let own = cell_gone(&news, old.cells.as_slice()[k]);
        let src = low.lows[k];
        let zero = low.zeros[k];
        let known = Known {
            low: src,
            zero,
            wanted: marks[k],
            kept: stays[k],
        };
        let new = raise(&mut low.list, &mut low.places, alloc, known, own)?;
        news[k] = new;
    }
    Ok(news)
}

/// Adds the low cells of a list, and then the high ones; returns for each cell of the list the source
/// with its own bit, if it has one.
pub fn grow(
    alloc: Global,
    old: &CellList,
    kept: &[Src],
    low: &mut Lowered,
) -> Result<Vec<Option<Src>>, PolarityError>
    requires { AreLow old.now 0 low.old.zeros.items low.old.list low.old.lows.items }
    ensures { IfOk result (λ news. AreGrown old.now kept.now low.new.list news.items) }
{
    lower(alloc, old, low)?;
    let marks = marks_of_needed(alloc, old, kept, &low.zeros)?;
    let stays = marks_of_kept(alloc, kept, &low.zeros)?;
    raise_all(alloc, old, kept, low, &marks, &stays)
}
