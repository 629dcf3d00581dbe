// Lists of cells that are rewritten to fewer cells.
use crate::listed::{Asked, expect_list};
use crate::pages::Page;
use crate::written::Written;
use cell_core::{Cell, CellList, Src};

/// How a list with three inputs, these cells and these nets is written down.
pub fn three_inputs<'a>(cells: &'a [Cell], nets: &'a [Src]) -> Written<'a> {
    Written {
        inputs: 3,
        cells,
        outs: &[],
        latches: &[],
        starts: &[],
        nets,
    }
}

/// Appends the list's cells, and the sources of its nets.
pub fn push_list(page: &mut Page, list: &CellList) {
    for cell in list.cells.as_slice() {
        page.push_item(cell);
        page.push(b" ");
    }
    for src in list.nets.as_slice() {
        page.push_item(src);
        page.push(b" ");
    }
}

/// Returns how many of the lists have this text, or 0 if the first one has another.
pub fn count_of(page: &mut Page, lists: &[CellList], want: &str) -> u64 {
    let mut count: u64 = 0;
    for list in lists {
        push_list(page, list);
        if page.tells(want.as_bytes()) {
            count = count.saturating_add(1);
        } else if count == 0 {
            return 0;
        }
    }
    count
}

// An XOR of two inputs as two AND-NOTs and an OR.
const XOR: &[Cell] = &[
    Cell::AndNot(Src::Input(0), Src::Input(1)),
    Cell::AndNot(Src::Input(1), Src::Input(0)),
    Cell::Or(Src::Cell(0), Src::Cell(1)),
];

// Cells, nets, kept sources, and the text of what the list is rewritten to.
const LISTS: &[(&[Cell], &[Src], &[Src], &str)] = &[
    (
        XOR,
        &[Src::Cell(2)],
        &[],
        "Xor(Input(0), Input(1)) Cell(0) ",
    ),
    (
        XOR,
        &[Src::Cell(0), Src::Cell(2)],
        &[Src::Cell(0)],
        "AndNot(Input(0), Input(1)) Xor(Input(0), Input(1)) Cell(0) Cell(1) ",
    ),
    (
        XOR,
        &[Src::Cell(2)],
        &[Src::Cell(2)],
        "AndNot(Input(0), Input(1)) AndNot(Input(1), Input(0)) Or(Cell(0), Cell(1)) Cell(2) ",
    ),
    (
        &[Cell::AndNot(Src::Input(2), Src::Input(2))],
        &[Src::Cell(0)],
        &[],
        "Zero ",
    ),
];

/// Notes it unless lists come to have fewer cells.
pub fn expect_rewritten(page: &mut Page) {
    for (cells, nets, kept, want) in LISTS {
        expect_list(
            page,
            &three_inputs(cells, nets),
            Asked::Rewritten(kept, want),
        );
    }
}
