// The registers of a list of cells.

use crate::values::Values;
use cell_core::{CellList, Src};
use lists::OutOfMemory;
use std::alloc::Global;
use strand_core::{Register, add, set};

/// Registers, and what each of them takes: the data of its first latch.
#[derive(Drop)]
pub struct Registers {
    pub registers: Vec<Register>,
    pub data: Vec<Src>,
    is_refused: bool,
}

// The latch that a source is, if the latch's one reader reads it there.
fn joined(values: &Values, src: Src) -> Option<u32> {
    match values.source(src) {
        Src::Latch(latch) if values.reads_of(values.latch(latch)) == 1 => Some(latch),
        _ => None,
    }
}

// Notes the latches by those that they read, if they are their one reader.
fn note_nexts(nexts: &mut [Option<u32>], values: &Values, latches: &[Src]) {
    let mut latch = 0u32;
    for src in latches {
        if values.reads_of(values.latch(latch)) > 0 {
            if let Some(before) = joined(values, *src) {
                set(nexts, before, Some(latch));
            }
        }
        latch = latch.saturating_add(1);
    }
}

fn no_latches(alloc: Global) -> Register {
    Register {
        latches: Vec::new(alloc),
        starts: Vec::new(alloc),
    }
}

// Adds the latches from a first one on to a register. Notes if memory is refused.
fn add_latches(
    register: &mut Register,
    nexts: &[Option<u32>],
    starts: &[bool],
    first: u32,
    is_refused: &mut bool,
) {
    let mut next = Some(first);
    for _ in 0..nexts.len() {
        let Some(latch) = next else {
            return;
        };
        let is_set = (latch as usize) < starts.len() && starts[latch as usize];
        add(&mut register.latches, latch, is_refused);
        add(&mut register.starts, is_set, is_refused);
        next = if (latch as usize) < nexts.len() {
            nexts[latch as usize]
        } else {
            None
        };
    }
}

impl Registers {
    /// Returns the registers of a list. Constant 1 is one of them if there are others.
    pub fn of(alloc: Global, list: &CellList, values: &Values) -> Result<Registers, OutOfMemory> {
        let latches = list.latches.as_slice();
        let mut nexts = vec![in alloc; None; latches.len()]?;
        note_nexts(&mut nexts, values, latches);
        let mut found = Registers {
            registers: Vec::new(alloc),
            data: Vec::new(alloc),
            is_refused: false,
        };
        found.find(alloc, list, values, &nexts);
        if found.is_refused {
            Err(OutOfMemory::NoMemory)
        } else {
            Ok(found)
        }
    }

    fn find(&mut self, alloc: Global, list: &CellList, values: &Values, nexts: &[Option<u32>]) {
        let starts = list.starts.as_slice();
        let mut latch = 0u32;
        for src in list.latches.as_slice() {
            if values.reads_of(values.latch(latch)) > 0 && joined(values, *src).is_none() {
                let mut register = no_latches(alloc);
                add_latches(&mut register, nexts, starts, latch, &mut self.is_refused);
                self.add(register, *src);
            }
            latch = latch.saturating_add(1);
        }
        if values.reads_of(values.one()) > 0 && !self.registers.is_empty() {
            let mut one = no_latches(alloc);
            add(&mut one.starts, true, &mut self.is_refused);
            self.add(one, Src::One);
        }
    }

    // Adds a register that takes a source.
    fn add(&mut self, register: Register, src: Src) {
        add(&mut self.registers, register, &mut self.is_refused);
        add(&mut self.data, src, &mut self.is_refused);
    }

    /// Returns the value that a register brings, which is that of its last latch.
    pub fn value(&self, values: &Values, number: u32) -> u32 {
        let Some(register) = self.registers.get(number as usize) else {
            return values.one();
        };
        match register.latches.last() {
            Some(latch) => values.latch(*latch),
            None => values.one(),
        }
    }
}
