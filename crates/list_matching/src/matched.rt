// Read-only tests of what stands for the sources of a list.
ghost use Rattle.std.specs.Prelude.{◌≡◌, ◌<◌, ℕ, length, map, IsTrue};
ghost use Rattle.cell_meaning.specs.Same.{cell_over};
ghost use Rattle.routed_circuits.specs.Runs.{src_at};
ghost use Rattle.list_matching.specs.Matched.{AreStandIns, StandsForCell, StandsForLatch, made_at, stand_in, turned_cell};

use cell_core::{Cell, CellList, Src, is_same_cell, is_same_src};

fn src_at(sources: &[Src], i: u32) -> Src
    ensures { result ≡ src_at sources.now i }
{
    match sources.get(i as usize) {
        Some(src) => *src,
        None => Src::Zero,
    }
}

/// Returns what stands for a source.
pub fn stand_in(cells: &[Src], latches: &[Src], src: Src) -> Src
    ensures { result ≡ stand_in cells.now latches.now src }
{
    match src {
        Src::Latch(l) => src_at(latches, l),
        Src::Cell(n) => src_at(cells, n),
        Src::Input(_) | Src::One | Src::Zero => src,
    }
}

/// Returns the cell over what stands for its operands.
pub fn cell_over(cells: &[Src], latches: &[Src], cell: Cell) -> Cell
    ensures { result ≡ cell_over (stand_in cells.now latches.now) cell }
{
    match cell {
        Cell::Or(a, b) => Cell::Or(stand_in(cells, latches, a), stand_in(cells, latches, b)),
        Cell::Xor(a, b) => Cell::Xor(stand_in(cells, latches, a), stand_in(cells, latches, b)),
        Cell::AndNot(a, b) => {
            Cell::AndNot(stand_in(cells, latches, a), stand_in(cells, latches, b))
        }
    }
}

/// Returns the cell with its operands exchanged, if that changes nothing.
pub fn turned(cell: Cell) -> Cell
    ensures { result ≡ turned_cell cell }
{
    match cell {
        Cell::Or(a, b) => Cell::Or(b, a),
        Cell::Xor(a, b) => Cell::Xor(b, a),
        Cell::AndNot(..) => cell,
    }
}

// Whether the source is a cell among these that is this one, or this one turned.
fn stands_for_cell(wanted: &[Cell], src: Src, cell: Cell) -> bool
    ensures { IsTrue result → StandsForCell wanted.now src cell }
{
    let Src::Cell(m) = src else {
        return false;
    };
    match wanted.get(m as usize) {
        Some(there) => is_same_cell(*there, cell) || is_same_cell(*there, turned(cell)),
        None => false,
    }
}

// Whether the cells' sources stand for them.
fn cells_stand(found: &[Cell], wanted: &[Cell], cells: &[Src], latches: &[Src]) -> bool
    requires all { length cells.now ≡ length found.now }
    ensures { IsTrue result → ((n : ℕ) → n < length found.now →
        StandsForCell wanted.now (src_at cells.now n)
        (cell_over (stand_in cells.now latches.now) (made_at found.now n))) }
{
    for (n, cell) in found.iter().enumerate() {
        if !stands_for_cell(wanted, cells[n], cell_over(cells, latches, *cell)) {
            return false;
        }
    }
    true
}

// Whether the source stands for latch `l`.
fn stands_for_latch(
    found: &CellList,
    wanted: &CellList,
    cells: &[Src],
    latches: &[Src],
    l: usize,
    src: Src,
) -> bool
    requires inside { l < length found.now.latches }
    ensures { IsTrue result → StandsForLatch found.now wanted.now (stand_in cells.now latches.now)
        l src }
{
    let _fits = found.starts.len();
    let data = stand_in(cells, latches, *found.latches.get(l));
    let start = *found.starts.get(l);
    match src {
        Src::Latch(k) => {
            let k = k as usize;
            k < wanted.latches.len()
                && start == *wanted.starts.get(k)
                && is_same_src(data, *wanted.latches.get(k))
        }
        Src::One => start && is_same_src(data, Src::One),
        Src::Input(_) | Src::Zero | Src::Cell(_) => false,
    }
}

// Whether the latches' sources stand for them.
fn latches_stand(found: &CellList, wanted: &CellList, cells: &[Src], latches: &[Src]) -> bool
    requires all { length latches.now ≡ length found.now.latches }
    ensures { IsTrue result → ((l : ℕ) → l < length found.now.latches →
        StandsForLatch found.now wanted.now (stand_in cells.now latches.now) l
        (src_at latches.now l)) }
{
    for (l, src) in latches.iter().enumerate() {
        if !stands_for_latch(found, wanted, cells, latches, l, *src) {
            return false;
        }
    }
    true
}

// Whether what stands for the first sources are the others.
fn all_stand(first: &[Src], others: &[Src], cells: &[Src], latches: &[Src]) -> bool
    ensures { IsTrue result → map (stand_in cells.now latches.now) first.now ≡ others.now }
{
    if first.len() != others.len() {
        return false;
    }
    for (i, src) in first.iter().enumerate() {
        if !is_same_src(stand_in(cells, latches, *src), others[i]) {
            return false;
        }
    }
    true
}

/// Returns whether each source of the list that was found has one of the wanted list that stands for
/// it.
pub fn are_stand_ins(found: &CellList, wanted: &CellList, cells: &[Src], latches: &[Src]) -> bool
    ensures { IsTrue result → AreStandIns found.now wanted.now cells.now latches.now }
{
    if found.inputs != wanted.inputs
        || cells.len() != found.cells.len()
        || latches.len() != found.latches.len()
    {
        return false;
    }
    if !cells_stand(
        found.cells.as_slice(),
        wanted.cells.as_slice(),
        cells,
        latches,
    ) {
        return false;
    }
    if !latches_stand(found, wanted, cells, latches) {
        return false;
    }
    if !all_stand(
        found.outs.as_slice(),
        wanted.outs.as_slice(),
        cells,
        latches,
    ) {
        return false;
    }
    all_stand(
        found.nets.as_slice(),
        wanted.nets.as_slice(),
        cells,
        latches,
    )
}
