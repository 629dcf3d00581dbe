// Truth tables of covers and of cells.
ghost use Rattle.std.specs.Prelude.{◌≡◌, ◌<◌, ◌≤◌, ◌||◌, ◌&&◌, not, ℕ, Bool, List, length, true, [], IsTrue, IfOk};
ghost use Rattle.netlist_meaning.specs.CoverValue.{fits, product_holds, cover_value};
ghost use Rattle.cell_core.specs.Sources.{is_there, reads_there, are_in_order};
ghost use Rattle.cell_core.specs.Meaning.{source_bit, cell_bit, cell_bits};
ghost use Rattle.cell_core.specs.Tables.{table_bit};
ghost use Rattle.cover_cells.specs.Words.{ShowTables, HasTable};
ghost use Rattle.lists.specs.Bits.{has_bit};

use cell_core::{Cell, CellError, Src, and_not_words, and_words, net_word, or_words, xor_words};
use lists::Bytes;
use std::alloc::Global;

// A product with one more column.
fn column_word(word: u64, net: u64, character: u8) -> u64
    ensures { (n : ℕ) → n < 64 → has_bit result n ≡
        (has_bit word n && fits character (has_bit net n)) }
{
    match character {
        b'0' => and_not_words(word, net),
        b'1' => and_words(word, net),
        _ => word,
    }
}

// The table of a row over so many nets.
fn row_word(row: &[u8], nets: usize) -> u64
    requires { nets ≤ 6 }
    ensures { (bits : List Bool) → length bits ≡ nets →
        table_bit bits result ≡ product_holds row.now bits }
{
    let mut word = u64::MAX;
    for i in 0..row.len().min(nets) {
        word = column_word(word, net_word(i), row[i]);
    }
    word
}

/// The table of a cover over so many nets.
pub fn rows_word(rows: &[Bytes], on: bool, nets: usize) -> u64
    requires { nets ≤ 6 }
    ensures { (bits : List Bool) → length bits ≡ nets →
        table_bit bits result ≡ cover_value rows.now on bits }
{
    let mut word = 0;
    for row in rows {
        word = or_words(word, row_word(row.as_slice(), nets));
    }
    if on {
        return word;
    }
    if rows.is_empty() {
        return word;
    }
    and_not_words(u64::MAX, word)
}

// The word of a source, if the cells before have these words.
fn source_word(src: Src, nets: usize, words: &[u64]) -> u64
    requires few { nets ≤ 6 }
    requires there { IsTrue (is_there nets 0 (length words.now) src) }
    ensures { (bits made : List Bool) → length bits ≡ nets → ShowTables bits words.now made →
        table_bit bits result ≡ source_bit bits [] made src }
{
    match src {
        Src::Input(i) => net_word(i as usize),
        Src::One => u64::MAX,
        Src::Latch(_) | Src::Zero => 0,
        Src::Cell(i) => words[i as usize],
    }
}

fn cell_word(cell: Cell, nets: usize, words: &[u64]) -> u64
    requires few { nets ≤ 6 }
    requires there { IsTrue (reads_there nets 0 (length words.now) cell) }
    ensures { (bits made : List Bool) → length bits ≡ nets → ShowTables bits words.now made →
        table_bit bits result ≡ cell_bit bits [] made cell }
{
    match cell {
        Cell::Or(a, b) => or_words(source_word(a, nets, words), source_word(b, nets, words)),
        Cell::Xor(a, b) => xor_words(source_word(a, nets, words), source_word(b, nets, words)),
        Cell::AndNot(a, b) => {
            and_not_words(source_word(a, nets, words), source_word(b, nets, words))
        }
    }
}

// The words of cells that are in order.
fn list_words(alloc: Global, cells: &[Cell], nets: usize) -> Result<Vec<u64>, CellError>
    requires few { nets ≤ 6 }
    requires in_order { IsTrue (are_in_order nets 0 0 cells.now) }
    ensures long { IfOk result (λ words. length words.items ≡ length cells.now) }
    ensures shows { IfOk result (λ words. (bits : List Bool) → length bits ≡ nets →
        ShowTables bits words.items (cell_bits bits [] cells.now)) }
{
    let mut words = Vec::new(alloc);
    for cell in cells {
        let word = cell_word(*cell, nets, &words);
        words.push(word)?;
    }
    Ok(words)
}

// Whether each cell reads only nets and cells before it.
fn are_in_order(cells: &[Cell], nets: usize) -> bool
    ensures { result ≡ are_in_order nets 0 0 cells.now }
{
    for (i, cell) in cells.iter().enumerate() {
        if !cell.reads_there(nets, 0, i) {
            return false;
        }
    }
    true
}

/// Whether the cells are in order and their root has this table.
pub fn computes(
    alloc: Global,
    cells: &[Cell],
    root: Src,
    nets: usize,
    table: u64,
) -> Result<bool, CellError>
    requires { nets ≤ 6 }
    ensures { IfOk result (λ yes. yes ≡ true → HasTable cells.now root nets table) }
{
    if !are_in_order(cells, nets) || !root.is_there(nets, 0, cells.len()) {
        return Ok(false);
    }
    let words = list_words(alloc, cells, nets)?;
    Ok(source_word(root, nets, &words) == table)
}
