//! A list type of which contracts see only the items, and not where they lie in memory; the error of a call that fails
//! only if memory runs out; and words and lemmas on lists, names and bits.
//!
//! Theorem: `of`, `get`, `as_slice`.
#![tactic(auto)]

mod memory;

ghost use Rattle.std.specs.Prelude.{◌≡◌, ◌<◌, ◌++◌, List, length, take, drop, slice_get, Some, IfOk};
ghost use Rattle.std.specs.Borrow.{sem, Lends, Array};

pub use memory::OutOfMemory;
use std::alloc::{AllocError, Global};
use std::marker::Model;

/// A list of items in order. Making it from a `Vec`, and giving the `Vec` back, takes no memory.
#[derive(Drop)]
pub struct List<T> {
    items: Vec<T>,
}

/// A list of bytes.
pub type Bytes = List<u8>;

impl<T> Model for List<T> {
    ghost Value = { List T };

    ghost view = { λ l. l.items.items };
}

impl<T> List<T> {
    ghost use Rattle.lists.specs.contracts.List.{the_row};

    /// Makes the list of the vector's items.
    pub fn of(items: Vec<T>) -> List<T>
        ensures { result ≡ items.items }
    {
        List { items }
    }

    /// Returns how many items there are.
    pub fn len(&self) -> usize
        ensures { result ≡ length self.now }
    {
        self.items.len()
    }

    /// Returns the item at place `i`, which is counted from 0 and below the length.
    pub fn get(&self, i: usize) -> &T
        requires { i < length self.now }
        ensures { slice_get self.now i ≡ Some result.now }
    {
        &self.items[i]
    }

    /// Returns the items as a slice.
    pub fn as_slice(&self) -> &[T]
        ensures { result.now ≡ self.now }
    {
        &self.items
    }

    /// Returns the items as a slice in which each can be changed in its place.
    pub fn as_mut_slice(&mut self) -> &mut [T]
        ensures* writes_back { sem 𝓛 (Lends (the_row T.row) (Array T.row 0) self.entry result
            (λ w. take (length self.entry.now) (w ++ drop (length w) self.entry.now))) }
        ensures value { result.now ≡ self.old }
    {
        &mut self.items
    }

    /// Returns the vector of the items.
    pub fn into_vec(self) -> Vec<T>
        ensures { result.items ≡ self }
    {
        self.items
    }
}

/// Copies some bytes into a list of their own.
pub fn copied(alloc: Global, bytes: &[u8]) -> Result<Bytes, AllocError>
    ensures { IfOk result (λ copy. copy ≡ bytes.now) }
{
    Ok(List::of(bytes.to_vec(alloc)?))
}
