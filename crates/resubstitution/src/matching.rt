// A wanted table as that of a divisor, of a cell of two divisors, or of two cells of three.
use crate::divisors::Divisor;
use crate::sieve::Sieve;
use cell_core::{Cell, Src};
use std::alloc::Global;

/// How the second of two new cells reads the first, and another source.
#[derive(Clone, Copy)]
pub enum Outer {
    Or(Src),
    Xor(Src),
    /// 1 if the first cell is 1 and the other source is 0.
    But(Src),
    /// 1 if the other source is 1 and the first cell is 0.
    Within(Src),
}

impl Outer {
    /// Returns the second cell, if the first one is this source.
    pub fn cell(self, first: Src) -> Cell {
        match self {
            Outer::Or(other) => Cell::Or(other, first),
            Outer::Xor(other) => Cell::Xor(other, first),
            Outer::But(other) => Cell::AndNot(first, other),
            Outer::Within(other) => Cell::AndNot(other, first),
        }
    }
}

/// The divisors, sorted by how their tables compare with a wanted table.
#[derive(Drop)]
pub struct Sorted<'a> {
    all: &'a [Divisor],
    /// The divisors that are 0 wherever the wanted table is 0.
    lower: Vec<Divisor>,
    /// The divisors that are 1 wherever the wanted table is 1.
    upper: Vec<Divisor>,
    /// The divisors that are 0 wherever the wanted table is 1.
    apart: Vec<Divisor>,
    sieve: Sieve,
    word: u64,
    /// Whether memory was refused: then something is missing here.
    pub is_refused: bool,
}

/// Returns constant 0 if the table is 0, or else the first divisor that has the table.
pub fn same(divisors: &[Divisor], word: u64) -> Option<Src> {
    if word == 0 {
        return Some(Src::Zero);
    }
    for divisor in divisors {
        if divisor.word == word {
            return Some(divisor.src);
        }
    }
    None
}

// Whether the two cells are the same, perhaps with the operands of an OR or XOR exchanged.
fn is_alike(a: Cell, b: Cell) -> bool {
    let turned = match a {
        Cell::Or(x, y) => Cell::Or(y, x),
        Cell::Xor(x, y) => Cell::Xor(y, x),
        Cell::AndNot(_, _) => a,
    };
    a == b || turned == b
}

// Adds a divisor to a kind, if it is of that kind. Returns whether memory was refused.
fn push_if(kind: &mut Vec<Divisor>, is_one: bool, divisor: Divisor) -> bool {
    is_one && kind.push(divisor).is_err()
}

impl<'a> Sorted<'a> {
    /// Sorts the divisors for a wanted table.
    pub fn of(alloc: Global, divisors: &'a [Divisor], word: u64) -> Sorted<'a> {
        let mut sorted = Sorted {
            all: divisors,
            lower: Vec::new(alloc),
            upper: Vec::new(alloc),
            apart: Vec::new(alloc),
            sieve: Sieve::new(),
            word,
            is_refused: false,
        };
        for divisor in divisors {
            sorted.add(*divisor);
        }
        sorted
    }

    fn add(&mut self, divisor: Divisor) {
        let (word, own) = (self.word, divisor.word);
        self.sieve.add(own);
        self.is_refused |= push_if(&mut self.lower, own & !word == 0, divisor)
            | push_if(&mut self.upper, word & !own == 0, divisor)
            | push_if(&mut self.apart, word & own == 0, divisor);
    }

    // The divisor with a table, if there is one.
    fn find(&self, word: u64) -> Option<Src> {
        if self.sieve.has(word) {
            same(self.all, word)
        } else {
            None
        }
    }

    // An XOR of two divisors that has the wanted table and is not the given cell.
    fn xor(&self, own: Cell) -> Option<Cell> {
        for a in self.all {
            if let Some(b) = self.find(a.word ^ self.word) {
                let cell = Cell::Xor(a.src, b);
                if !is_alike(cell, own) {
                    return Some(cell);
                }
            }
        }
        None
    }

    fn or_with(&self, a: Divisor, own: Cell) -> Option<Cell> {
        for b in &self.lower {
            if a.word | b.word == self.word {
                let cell = Cell::Or(a.src, b.src);
                if !is_alike(cell, own) {
                    return Some(cell);
                }
            }
        }
        None
    }

    // An OR of two divisors that has the wanted table and is not the given cell.
    fn or(&self, own: Cell) -> Option<Cell> {
        for a in &self.lower {
            if let Some(cell) = self.or_with(*a, own) {
                return Some(cell);
            }
        }
        None
    }

    fn and_not_of(&self, a: Divisor, own: Cell) -> Option<Cell> {
        for b in &self.apart {
            if a.word & !b.word == self.word {
                let cell = Cell::AndNot(a.src, b.src);
                if !is_alike(cell, own) {
                    return Some(cell);
                }
            }
        }
        None
    }

    // An AND-NOT of two divisors that has the wanted table and is not the given cell.
    fn and_not(&self, own: Cell) -> Option<Cell> {
        for a in &self.upper {
            if let Some(cell) = self.and_not_of(*a, own) {
                return Some(cell);
            }
        }
        None
    }

    /// Returns a cell of two divisors that has the wanted table and is not the given cell, if there
    /// is one.
    pub fn one_cell(&self, own: Cell) -> Option<Cell> {
        if let Some(cell) = self.xor(own) {
            return Some(cell);
        }
        if let Some(cell) = self.or(own) {
            return Some(cell);
        }
        self.and_not(own)
    }

    // The OR of a first cell with this word and a divisor, if it has the wanted table.
    fn outer_or(&self, first: u64) -> Option<Outer> {
        if first & !self.word != 0 {
            return None;
        }
        for other in &self.lower {
            if other.word | first == self.word {
                return Some(Outer::Or(other.src));
            }
        }
        None
    }

    // The AND-NOT of a divisor and a first cell with this word, if it has the wanted table.
    fn outer_within(&self, first: u64) -> Option<Outer> {
        if first & self.word != 0 {
            return None;
        }
        for other in &self.upper {
            if other.word & !first == self.word {
                return Some(Outer::Within(other.src));
            }
        }
        None
    }

    // The AND-NOT of a first cell with this word and a divisor, if it has the wanted table.
    fn outer_but(&self, first: u64) -> Option<Outer> {
        if self.word & !first != 0 {
            return None;
        }
        for other in &self.apart {
            if first & !other.word == self.word {
                return Some(Outer::But(other.src));
            }
        }
        None
    }

    // How a second cell that has the wanted table reads a first one with this word, if one does.
    fn outer(&self, first: u64) -> Option<Outer> {
        if let Some(outer) = self.outer_or(first) {
            return Some(outer);
        }
        if let Some(outer) = self.outer_within(first) {
            return Some(outer);
        }
        if let Some(outer) = self.outer_but(first) {
            return Some(outer);
        }
        let other = self.find(first ^ self.word)?;
        Some(Outer::Xor(other))
    }

    // Two cells, of which the first reads these two divisors and the second has the wanted table.
    fn two_cells_of(&self, a: Divisor, b: Divisor) -> Option<(Cell, Outer)> {
        if let Some(outer) = self.outer(a.word & !b.word) {
            return Some((Cell::AndNot(a.src, b.src), outer));
        }
        if let Some(outer) = self.outer(b.word & !a.word) {
            return Some((Cell::AndNot(b.src, a.src), outer));
        }
        if let Some(outer) = self.outer(a.word | b.word) {
            return Some((Cell::Or(a.src, b.src), outer));
        }
        let outer = self.outer(a.word ^ b.word)?;
        Some((Cell::Xor(a.src, b.src), outer))
    }

    fn two_cells_with(&self, a: Divisor, earlier: usize) -> Option<(Cell, Outer)> {
        for place in 0..earlier.min(self.all.len()) {
            if let Some(found) = self.two_cells_of(a, self.all[place]) {
                return Some(found);
            }
        }
        None
    }

    /// Returns two cells of three divisors, of which the second has the wanted table, if there are
    /// any.
    pub fn two_cells(&self) -> Option<(Cell, Outer)> {
        for (place, a) in self.all.iter().enumerate() {
            if let Some(found) = self.two_cells_with(*a, place) {
                return Some(found);
            }
        }
        None
    }
}
