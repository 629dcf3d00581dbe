// A page on which tests write what is said, and which notes what is wrong.
use itoa::Buffer;
use pattern_writing::tag_of;
use std::alloc::{AllocError, Global};
use std::fmt::Debug;
use std::test::Fail;
use ww_rule::{CellRows, State};

/// What is said in a case, what was wrong in the cases before it, and whether something was refused,
/// as memory for a part. No call on it fails, since each `?` costs proof time.
#[derive(Drop)]
pub struct Page {
    alloc: Global,
    said: Vec<u8>,
    wrong: Vec<u8>,
    is_cut: bool,
}

impl Page {
    /// Makes an empty page.
    pub fn new(alloc: Global) -> Page {
        Page {
            alloc,
            said: Vec::new(alloc),
            wrong: Vec::new(alloc),
            is_cut: false,
        }
    }

    /// Returns the allocator of the page.
    pub fn alloc(&self) -> Global {
        self.alloc
    }

    /// Notes that memory was refused, or that what is to be told is not there.
    pub fn cut(&mut self) {
        self.is_cut = true;
    }

    /// Appends a part.
    pub fn push(&mut self, part: &[u8]) {
        self.is_cut |= self.said.extend_from_slice(part).is_err();
    }

    /// Appends a byte.
    pub fn push_byte(&mut self, byte: u8) {
        self.is_cut |= self.said.push(byte).is_err();
    }

    /// Appends a number in digits.
    pub fn push_number(&mut self, number: u64) {
        let mut digits = Buffer::new();
        self.push(digits.format(number).as_bytes());
    }

    /// Appends an item.
    pub fn push_item<T: Debug>(&mut self, item: &T) {
        match format!(in self.alloc; "{item:?}") {
            Ok(shown) => self.push(shown.as_bytes()),
            Err(_) => self.is_cut = true,
        }
    }

    /// Appends the letters of cells, and `$` after them.
    pub fn push_row(&mut self, cells: &[State]) {
        for state in cells {
            self.push_byte(tag_of(*state));
        }
        self.push(b"$");
    }

    /// Appends the letters of rows, with `$` after each row.
    pub fn push_rows(&mut self, rows: &CellRows) {
        for y in 0..rows.len() {
            self.push_row(rows.row_or_none(y));
        }
    }

    /// Returns what is said.
    pub fn said(&self) -> &[u8] {
        self.said.as_slice()
    }

    /// Begins anew.
    pub fn clear(&mut self) {
        self.said.clear();
    }

    /// Ends a case: notes what is said, unless it is `want`.
    pub fn expect(&mut self, want: &[u8]) {
        let is_said = self.said.as_slice() == want;
        if !is_said {
            self.push(b", and not ");
            self.push(want);
        }
        self.end_case(is_said);
    }

    /// Notes what a case is about, unless it holds.
    pub fn expect_holds(&mut self, about: &[u8], holds: bool) {
        self.push(about);
        self.end_case(holds);
    }

    /// Notes what a turn is about and its number, unless it holds.
    pub fn expect_turn(&mut self, about: &[u8], turn: usize, holds: bool) {
        self.push(about);
        self.push(b", turn ");
        self.push_number(turn as u64);
        self.end_case(holds);
    }

    // Notes what is said, unless it holds, and begins anew.
    fn end_case(&mut self, holds: bool) {
        if !holds {
            self.push(b"; ");
            self.is_cut |= self.wrong.extend_from_slice(self.said.as_slice()).is_err();
        }
        self.said.clear();
    }

    /// Fails if something was wrong.
    pub fn end(&self) -> Result<(), Fail> {
        if !self.wrong.is_empty() {
            Err(Fail::new(format_args!("{}", self.wrong.escape_ascii())))
        } else if self.is_cut {
            Err(Fail::from(AllocError))
        } else {
            Ok(())
        }
    }
}
