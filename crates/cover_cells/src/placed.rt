// Cells that stand by themselves, put into a list.
ghost use Rattle.std.specs.Prelude.{◌≡◌, length, IsTrue, IfOk};
ghost use Rattle.cell_core.specs.Sources.{is_there, reads_there, are_in_order};
ghost use Rattle.cell_sharing.specs.Grown.{HasSources};
ghost use Rattle.cover_cells.specs.Placed.{relocated, relocated_cell, ArePlaced};

use cell_core::{Cell, CellError, CellList, Src};
use cell_sharing::{Places, settle};
use std::alloc::Global;

/// The source in the list for a source of the cells.
pub fn relocated(src: Src, sources: &[Src], made: &[Src]) -> Src
    requires { IsTrue (is_there (length sources.now) 0 (length made.now) src) }
    ensures { result ≡ relocated sources.now made.now src }
{
    match src {
        Src::Input(i) => sources[i as usize],
        Src::One => Src::One,
        Src::Latch(_) | Src::Zero => Src::Zero,
        Src::Cell(i) => made[i as usize],
    }
}

fn relocated_cell(cell: Cell, sources: &[Src], made: &[Src]) -> Cell
    requires { IsTrue (reads_there (length sources.now) 0 (length made.now) cell) }
    ensures { result ≡ relocated_cell sources.now made.now cell }
{
    match cell {
        Cell::Or(a, b) => Cell::Or(relocated(a, sources, made), relocated(b, sources, made)),
        Cell::Xor(a, b) => Cell::Xor(relocated(a, sources, made), relocated(b, sources, made)),
        Cell::AndNot(a, b) => Cell::AndNot(
            relocated(a, sources, made),
            relocated(b, sources, made),
        ),
    }
}

/// Puts the cells into the list, and returns the source of each there.
pub fn place(
    list: &mut CellList,
    places: &mut Places,
    alloc: Global,
    sources: &[Src],
    cells: &[Cell],
) -> Result<Vec<Src>, CellError>
    requires there { HasSources list.old sources.now }
    requires in_order { IsTrue (are_in_order (length sources.now) 0 0 cells.now) }
    ensures { IfOk result (λ made. ArePlaced list.old list.new sources.now cells.now
        (length cells.now) made.items) }
{
    let mut made = Vec::new(alloc);
    for cell in cells {
        let placed = settle(list, places, alloc, relocated_cell(*cell, sources, &made))?;
        made.push(placed)?;
    }
    Ok(made)
}
