// A page on which tests write what is said, and which notes what is wrong.
use itoa::Buffer;
use lists::{Bytes, List, copied};
use std::alloc::{AllocError, Global};
use std::fmt::Debug;
use std::test::Fail;

/// What is said in a case, what was wrong in the cases before it, and whether memory was refused for a part. No call on
/// it but the last fails, since each `?` costs proof time.
#[derive(Drop)]
pub struct Page {
    alloc: Global,
    said: Vec<u8>,
    wrong: Vec<u8>,
    is_cut: bool,
}

impl Page {
    /// Makes an empty page.
    pub fn new(alloc: Global) -> Page {
        Page {
            alloc,
            said: Vec::new(alloc),
            wrong: Vec::new(alloc),
            is_cut: false,
        }
    }

    /// Returns the allocator of the page.
    pub fn alloc(&self) -> Global {
        self.alloc
    }

    /// Notes that memory was refused.
    pub fn cut(&mut self) {
        self.is_cut = true;
    }

    /// Puts an item after the others. The item's type is open here, so that what is dropped if memory is refused costs
    /// no proof time.
    pub fn put<T: Drop>(&mut self, items: &mut Vec<T>, item: T) {
        self.is_cut |= items.push(item).is_err();
    }

    /// Returns a copy of a text, or an empty text if memory is refused.
    pub fn copy(&mut self, text: &[u8]) -> Bytes {
        match copied(self.alloc, text) {
            Ok(copy) => copy,
            Err(_) => {
                self.is_cut = true;
                List::of(Vec::new(self.alloc))
            }
        }
    }

    /// Appends a part.
    pub fn push(&mut self, part: &[u8]) {
        self.is_cut |= self.said.extend_from_slice(part).is_err();
    }

    /// Appends a number in digits.
    pub fn push_number(&mut self, number: u64) {
        let mut digits = Buffer::new();
        self.push(digits.format(number).as_bytes());
    }

    /// Appends an item.
    pub fn push_item<T: Debug>(&mut self, item: &T) {
        match format!(in self.alloc; "{item:?}") {
            Ok(shown) => self.push(shown.as_bytes()),
            Err(_) => self.is_cut = true,
        }
    }

    /// Begins a line with the kind and the number of its item.
    pub fn push_start(&mut self, what: &[u8], number: usize) {
        self.push(what);
        self.push(b" ");
        self.push_number(number as u64);
        self.push(b": ");
    }

    /// Returns whether `want` is said, and begins anew.
    pub fn tells(&mut self, want: &[u8]) -> bool {
        let is_said = self.said.as_slice() == want;
        self.said.clear();
        is_said
    }

    /// Ends a case: notes what is said, unless it is `want`.
    pub fn expect(&mut self, want: &[u8]) {
        let is_said = self.said.as_slice() == want;
        if !is_said {
            self.push(b", and not ");
            self.push(want);
        }
        self.expect_holds(is_said);
    }

    /// Ends a case: notes what is said, unless it holds.
    pub fn expect_holds(&mut self, holds: bool) {
        if !holds {
            self.push(b"; ");
            self.is_cut |= self.wrong.extend_from_slice(self.said.as_slice()).is_err();
        }
        self.said.clear();
    }

    /// Fails if something was wrong.
    pub fn end(&self) -> Result<(), Fail> {
        if self.is_cut {
            Err(Fail::from(AllocError))
        } else if self.wrong.is_empty() {
            Ok(())
        } else {
            Err(Fail::new(format_args!("{}", self.wrong.escape_ascii())))
        }
    }
}
