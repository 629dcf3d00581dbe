// Lists of cells in which what is 1 at zero is kept as its complement.
use crate::listed::{Asked, expect_list};
use crate::pages::Page;
use crate::rewriting::three_inputs;
use cell_core::{Cell, Src};

// A NAND of two inputs, and its AND with a third.
const NAND: &[Cell] = &[
    Cell::AndNot(Src::One, Src::Input(0)),
    Cell::AndNot(Src::One, Src::Input(1)),
    Cell::Or(Src::Cell(0), Src::Cell(1)),
    Cell::AndNot(Src::One, Src::Input(2)),
    Cell::AndNot(Src::Cell(2), Src::Cell(3)),
];

// An XOR of an inverted input and another one.
const XNOR: &[Cell] = &[
    Cell::AndNot(Src::One, Src::Input(0)),
    Cell::Xor(Src::Cell(0), Src::Input(1)),
];

// Cells, nets, kept sources, and the text of the list with complements.
const LISTS: &[(&[Cell], &[Src], &[Src], &str)] = &[
    (
        NAND,
        &[Src::Cell(4)],
        &[],
        "AndNot(Input(0), Input(1)) AndNot(Input(0), Cell(0)) AndNot(Input(2), Cell(1)) Cell(2) ",
    ),
    (
        NAND,
        &[Src::Cell(2), Src::Cell(4)],
        &[],
        "AndNot(Input(0), Input(1)) AndNot(Input(0), Cell(0)) AndNot(Input(2), Cell(1)) AndNot(One, Cell(1)) Cell(3) Cell(2) ",
    ),
    (
        XNOR,
        &[Src::Cell(1)],
        &[],
        "Xor(Input(0), Input(1)) AndNot(One, Cell(0)) Cell(1) ",
    ),
    (
        XNOR,
        &[Src::Cell(1)],
        &[Src::Cell(1)],
        "Xor(Input(0), Input(1)) AndNot(One, Input(0)) Xor(Cell(1), Input(1)) Cell(2) ",
    ),
];

/// Notes it unless what is one at zero is kept as its complement.
pub fn expect_complements(page: &mut Page) {
    for (cells, nets, kept, want) in LISTS {
        expect_list(
            page,
            &three_inputs(cells, nets),
            Asked::Complemented(kept, want),
        );
    }
}
