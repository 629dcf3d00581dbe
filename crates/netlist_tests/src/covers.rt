// How many cells covers are mapped to.
use crate::pages::Page;
use crate::written::{Written, are_there, list_of};
use cell_core::{CellList, Src};
use cell_sharing::Places;
use cover_cells::map_cover;
use lists::Bytes;
use std::alloc::Global;

// A cover: its sources, its rows and whether they end in `1`, and how many cells it takes.
struct Case {
    about: &'static str,
    sources: &'static [Src],
    rows: &'static [&'static [u8]],
    on: bool,
    cells: u64,
}

// A list with eight inputs and no cells.
const EIGHT_INPUTS: Written<'static> = Written {
    inputs: 8,
    cells: &[],
    outs: &[],
    latches: &[],
    starts: &[],
    nets: &[],
};

const TWO: &[Src] = &[Src::Input(0), Src::Input(1)];

const THREE: &[Src] = &[Src::Input(0), Src::Input(1), Src::Input(2)];

const COVERS: &[Case] = &[
    Case {
        about: "an OR",
        sources: TWO,
        rows: &[b"1-", b"-1"],
        on: true,
        cells: 1,
    },
    Case {
        about: "an AND",
        sources: TWO,
        rows: &[b"11"],
        on: true,
        cells: 2,
    },
    Case {
        about: "a NAND",
        sources: TWO,
        rows: &[b"11"],
        on: false,
        cells: 3,
    },
    Case {
        about: "a NOT",
        sources: &[Src::Input(0)],
        rows: &[b"0"],
        on: true,
        cells: 1,
    },
    Case {
        about: "constant 1",
        sources: &[],
        rows: &[b""],
        on: true,
        cells: 0,
    },
    Case {
        about: "constant 0",
        sources: &[],
        rows: &[],
        on: true,
        cells: 0,
    },
    Case {
        about: "a choice",
        sources: THREE,
        rows: &[b"11-", b"0-1"],
        on: true,
        cells: 3,
    },
    Case {
        about: "a sum",
        sources: THREE,
        rows: &[b"100", b"010", b"001", b"111"],
        on: true,
        cells: 2,
    },
    Case {
        about: "a carry",
        sources: THREE,
        rows: &[b"11-", b"1-1", b"-11"],
        on: true,
        cells: 4,
    },
    Case {
        about: "an AND of four",
        sources: &[Src::Input(0), Src::Input(1), Src::Input(2), Src::Input(3)],
        rows: &[b"1111"],
        on: true,
        cells: 6,
    },
    Case {
        about: "an AND of six",
        sources: &[
            Src::Input(0),
            Src::Input(1),
            Src::Input(2),
            Src::Input(3),
            Src::Input(4),
            Src::Input(5),
        ],
        rows: &[b"111111"],
        on: true,
        cells: 10,
    },
    Case {
        about: "an AND of eight",
        sources: &[
            Src::Input(0),
            Src::Input(1),
            Src::Input(2),
            Src::Input(3),
            Src::Input(4),
            Src::Input(5),
            Src::Input(6),
            Src::Input(7),
        ],
        rows: &[b"11111111"],
        on: true,
        cells: 14,
    },
    // covers that read one source twice, or constant 0
    Case {
        about: "an AND of one net",
        sources: &[Src::Input(0), Src::Input(0)],
        rows: &[b"11"],
        on: true,
        cells: 0,
    },
    Case {
        about: "a NAND of one net",
        sources: &[Src::Input(0), Src::Input(0)],
        rows: &[b"11"],
        on: false,
        cells: 1,
    },
    Case {
        about: "an AND of constant 0",
        sources: &[Src::Input(0), Src::Zero],
        rows: &[b"11"],
        on: true,
        cells: 0,
    },
];

// Copies of a cover's rows. The page notes if one is missing.
fn rows_of(page: &mut Page, written: &[&[u8]]) -> Vec<Bytes> {
    let mut rows = Vec::new(page.alloc());
    for row in written {
        let row = page.copy(row);
        page.put(&mut rows, row);
    }
    rows
}

// How many cells the list has after the case's cover with these rows is mapped into it.
fn count_in(alloc: Global, list: &mut CellList, case: &Case, rows: &[Bytes]) -> Option<u64> {
    if !are_there(
        case.sources,
        list.inputs as usize,
        list.starts.len(),
        list.cells.len(),
    ) {
        return None;
    }
    let mut places = Places::new(alloc);
    match map_cover(list, &mut places, alloc, case.sources, rows, case.on) {
        Ok(_) => Some(list.cells.len() as u64),
        Err(_) => None,
    }
}

// How many cells the case's cover takes.
fn count_of(page: &mut Page, case: &Case) -> Option<u64> {
    let rows = rows_of(page, case.rows);
    match list_of(page.alloc(), &EIGHT_INPUTS) {
        Some(mut list) => {
            let count = count_in(page.alloc(), &mut list, case, &rows);
            drop(list);
            count
        }
        None => None,
    }
}

/// Notes it unless covers take few cells.
pub fn expect_counts(page: &mut Page) {
    for case in COVERS {
        let count = count_of(page, case);
        page.push(case.about.as_bytes());
        page.expect_holds(count == Some(case.cells));
    }
}
