// Covers that are a constant by their text, and covers of two nets that are one cell.
ghost use Rattle.std.specs.Prelude.{◌≡◌};
ghost use Rattle.cell_meaning.specs.Singles.{is_only, are_both, are_pair, cell_of_rows, constant_source, single_cell};

use cell_core::{Cell, Src};
use lists::Bytes;

/// The constant that a cover of so many nets is by its text, if it is one.
pub fn constant_source(nets: usize, rows: &[Bytes], on: bool) -> Option<Src>
    ensures { result ≡ constant_source nets rows.now on }
{
    if rows.is_empty() {
        return Some(Src::Zero);
    }
    if nets > 0 {
        return None;
    }
    if on { Some(Src::One) } else { Some(Src::Zero) }
}

fn is_only(rows: &[Bytes], a: &[u8]) -> bool
    ensures { result ≡ is_only rows.now a.now }
{
    rows.len() == 1 && rows[0].as_slice() == a
}

fn are_both(rows: &[Bytes], a: &[u8], b: &[u8]) -> bool
    ensures { result ≡ are_both rows.now a.now b.now }
{
    rows.len() == 2 && rows[0].as_slice() == a && rows[1].as_slice() == b
}

fn are_pair(rows: &[Bytes], a: &[u8], b: &[u8]) -> bool
    ensures { result ≡ are_pair rows.now a.now b.now }
{
    are_both(rows, a, b) || are_both(rows, b, a)
}

fn cell_of_rows(a: Src, b: Src, rows: &[Bytes]) -> Option<Cell>
    ensures { result ≡ cell_of_rows a b rows.now }
{
    if are_pair(rows, b"1-", b"-1") {
        return Some(Cell::Or(a, b));
    }
    if are_pair(rows, b"10", b"01") {
        return Some(Cell::Xor(a, b));
    }
    if is_only(rows, b"10") {
        return Some(Cell::AndNot(a, b));
    }
    if is_only(rows, b"01") {
        return Some(Cell::AndNot(b, a));
    }
    None
}

/// Returns the one cell, over these sources, of a cover of two nets with the rows of an OR, an XOR
/// or an AND-NOT. `None` comes for any other cover.
pub fn single_cell(sources: &[Src], rows: &[Bytes], on: bool) -> Option<Cell>
    ensures { result ≡ single_cell sources.now rows.now on }
{
    let [a, b] = sources else {
        return None;
    };
    if on { cell_of_rows(*a, *b, rows) } else { None }
}
