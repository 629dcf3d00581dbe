// What reads the values of a list.

use crate::registers::Registers;
use crate::values::Values;
use cell_core::{Cell, CellList, Src};
use lists::OutOfMemory;
use std::alloc::Global;
use strand_core::{add, at};
use strand_orders::{Links, small};

/// The cells and ports that read values: the cells by their numbers, then the registers' data, and then the outputs.
/// Reader `n` has the entries `2 n` and `2 n + 1`. `layers` says in which layer each reader stands.
#[derive(Drop)]
pub struct Readers {
    pub count: u32,
    pub layers: Vec<u32>,
    // the entries at which each value is read
    entries: Links,
}

/// Returns the first entry of a reader.
pub fn entry_of(reader: u32) -> u32 {
    reader.saturating_mul(2)
}

// The values that are read, each with an entry.
#[derive(Drop)]
struct Reads {
    pairs: Vec<(u32, u32)>,
    is_refused: bool,
}

impl Reads {
    // Adds that a source is read at an entry.
    fn add(&mut self, values: &Values, entry: u32, src: Src) {
        if let Some(value) = values.number(src) {
            add(&mut self.pairs, (value, entry), &mut self.is_refused);
        }
    }

    // Adds that ports read sources, from a first one on.
    fn add_ports(&mut self, values: &Values, first: u32, sources: &[Src]) {
        let mut reader = first;
        for src in sources {
            self.add(values, entry_of(reader), *src);
            reader = reader.saturating_add(1);
        }
    }

    fn add_cells(&mut self, values: &Values, cells: &[Cell]) {
        let mut number = 0u32;
        for cell in cells {
            if values.is_made(number) {
                let (first, second) = values.operands(*cell);
                let entry = entry_of(number);
                self.add(values, entry, first);
                self.add(values, entry.saturating_add(1), second);
            }
            number = number.saturating_add(1);
        }
    }
}

// The entries at which each value is read.
fn entries_of(
    alloc: Global,
    list: &CellList,
    values: &Values,
    data: &[Src],
) -> Result<Links, OutOfMemory> {
    let mut reads = Reads {
        pairs: Vec::new(alloc),
        is_refused: false,
    };
    reads.add_cells(values, list.cells.as_slice());
    reads.add_ports(values, values.cells, data);
    let first = values.cells.saturating_add(small(data.len()));
    reads.add_ports(values, first, list.outs.as_slice());
    let mut entries = Links::new(alloc);
    entries.fill(values.reads.len(), &reads.pairs, &mut reads.is_refused);
    if reads.is_refused {
        Err(OutOfMemory::NoMemory)
    } else {
        Ok(entries)
    }
}

impl Readers {
    /// Returns the readers of a list, all in one layer.
    pub fn of(
        alloc: Global,
        list: &CellList,
        values: &Values,
        registers: &Registers,
    ) -> Result<Readers, OutOfMemory> {
        let ports = small(registers.data.len()).saturating_add(small(list.outs.len()));
        let count = values.cells.saturating_add(ports);
        let entries = entries_of(alloc, list, values, &registers.data)?;
        Ok(Readers {
            count,
            layers: vec![in alloc; 0u32; count as usize]?,
            entries,
        })
    }

    /// Adds the layers of a value's readers, and the entries at which they read it.
    pub fn add_readings(&self, readings: &mut Vec<(u32, u32)>, value: u32, is_refused: &mut bool) {
        for entry in self.entries.of_node(value) {
            let layer = at(&self.layers, *entry / 2);
            add(readings, (layer, *entry), is_refused);
        }
    }
}
