// Tests of the timing law, of a window's step, of the page of all tiles, and of tiles by themselves.
use crate::pages::Page;
use page::PAGE;
use tile_core::{Kind, Library, Tile};
use tile_library::{Shipped, tiles};
use tile_timing::{law_holds, window_step};
use ww_rule::State;

mod page;

const KINDS: &[Kind] = &[
    Kind::Swap,
    Kind::Xor,
    Kind::Or,
    Kind::AndNot,
    Kind::Fork,
    Kind::East,
    Kind::South,
    Kind::North,
    Kind::EastSouth,
    Kind::SouthWest,
    Kind::WestNorth,
    Kind::NorthEast,
    Kind::West,
    Kind::WestSwap,
];

// The cells of the Or drawing, row after row.
fn or_cells() -> [State; 1024] {
    let mut cells = [State::Empty; 1024];
    for (i, cell) in cells.iter_mut().enumerate() {
        if Shipped.cell(Kind::Or, (i % 32) as u32, (i / 32) as u32) {
            *cell = State::Conductor;
        }
    }
    cells
}

// The Or drawing, with plain wires in place of its two diodes.
fn or_without_diodes() -> [State; 1024] {
    let mut cells = or_cells();
    for y in [14, 18] {
        for x in [11, 12] {
            cells[(y - 1) * 32 + x] = State::Empty;
            cells[y * 32 + x] = State::Conductor;
            cells[(y + 1) * 32 + x] = State::Empty;
        }
    }
    cells
}

// Whether the law holds of the Or drawing, of the drawing without diodes, of the drawing taken for
// an Xor, of the drawing without its last cell, and of the drawing with a head.
fn laws() -> [bool; 5] {
    let or = or_cells();
    let all_but_one = &or[..1023];
    let mut lit = or_cells();
    lit[8 * 32] = State::Head;
    [
        law_holds(&or, Kind::Or),
        law_holds(&or_without_diodes(), Kind::Or),
        law_holds(&or, Kind::Xor),
        law_holds(all_but_one, Kind::Or),
        law_holds(&lit, Kind::Or),
    ]
}

// The letter of a cell: `.` if it is empty, its port's letter if it is a port, and else `C`.
fn letter(kind: Kind, x: u32, y: u32) -> u8 {
    if !Shipped.cell(kind, x, y) {
        return b'.';
    }
    let [a, b] = kind.entries();
    let [c, d] = kind.exits();
    let is_pair = kind.lanes() == 2;
    if (x, y) == a {
        b'a'
    } else if (x, y) == c {
        b'y'
    } else if is_pair && (x, y) == b {
        b'b'
    } else if is_pair && (x, y) == d {
        b'z'
    } else {
        b'C'
    }
}

fn push_picture(page: &mut Page, kind: Kind) {
    page.push(b"\n```text\n");
    for y in 0..16 * kind.lanes() {
        for x in 0..32 {
            page.push_byte(letter(kind, x, y));
        }
        page.push(b"\n");
    }
    page.push(b"```\n");
}

// Adds a row of a table.
fn push_bits(page: &mut Page, bits: &[bool]) {
    for bit in bits {
        page.push(if *bit { b"| 1 " } else { b"| 0 " });
    }
    page.push(b"|\n");
}

// Adds the table of a tile with one entry.
fn push_answer(page: &mut Page, kind: Kind) {
    page.push(b"| a | y |\n|---|---|\n");
    for bits in 0..2u32 {
        let a = bits == 1;
        let [y, _] = kind.answer([a, false]);
        push_bits(page, &[a, y]);
    }
}

// Adds the table of a tile with two entries.
fn push_answers(page: &mut Page, kind: Kind) {
    page.push(b"| a | b | y | z |\n|---|---|---|---|\n");
    for bits in 0..4u32 {
        let (a, b) = (bits / 2 == 1, bits % 2 == 1);
        let [y, z] = kind.answer([a, b]);
        push_bits(page, &[a, b, y, z]);
    }
}

// Adds a tile's part.
fn push_section(page: &mut Page, kind: Kind) {
    page.push(b"\n## ");
    page.push_item(&kind);
    page.push(b"\n\n");
    if kind.lanes() == 1 {
        push_answer(page, kind);
    } else {
        push_answers(page, kind);
    }
    push_picture(page, kind);
}

// Whether the page of all tiles ends with this text.
fn ends_page(text: &[u8]) -> bool {
    PAGE.as_bytes().ends_with(text)
}

// All of the page that follows its introduction.
fn expect_page(page: &mut Page) {
    for kind in KINDS {
        push_section(page, *kind);
    }
    if ends_page(page.said()) {
        page.clear();
    }
    page.expect(b"");
}

// Which exits a tile lights if only its first entry is lit.
fn lit_by_first<T: Tile>(tile: &T) -> [bool; 2] {
    tile.answer([true, false])
}

fn lights() -> [[bool; 2]; 4] {
    [
        lit_by_first(&tiles::Swap),
        lit_by_first(&tiles::Fork),
        lit_by_first(&tiles::SouthWest),
        [tiles::SouthWest.cell(23, 7), tiles::SouthWest.cell(24, 7)],
    ]
}

// The four cells of a wire after a step, laid out as one row, as two rows and as a column.
fn stepped() -> [[State; 4]; 3] {
    let wire = [State::Tail, State::Head, State::Conductor, State::Conductor];
    let mut row = [State::Empty; 4];
    window_step(&wire, &mut row, 4);
    let mut rows = [State::Empty; 4];
    window_step(&wire, &mut rows, 2);
    let mut column = [State::Empty; 4];
    window_step(&wire, &mut column, 1);
    [row, rows, column]
}

/// Notes it unless the page shows every tile, tiles answer by themselves, and the law holds of the Or drawing alone.
pub fn expect_tiles(page: &mut Page) {
    expect_page(page);
    page.expect_holds(b"the law", laws() == [true, false, false, false, false]);
    let entries = tiles::SouthWest::ENTRIES;
    page.expect_holds(b"the entries", entries == [(16, 0), (0, 0)]);
    let want = [[false, true], [true, true], [true, false], [true, false]];
    page.expect_holds(b"the answers", lights() == want);
    let moved = [State::Conductor, State::Tail, State::Head, State::Conductor];
    let lit_below = [State::Conductor, State::Tail, State::Head, State::Head];
    page.expect_holds(b"a window's step", stepped() == [moved, lit_below, moved]);
}
