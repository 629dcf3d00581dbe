// The cells of the port table.

use pattern_reading::{NetLine, PortLine, Ports};

/// What a line of the port table names.
#[derive(Clone, Copy)]
pub enum LineKind {
    In,
    Out,
    Net,
}

/// A cell of the port table, and the generation at which it is lit first.
#[derive(Clone, Copy)]
pub struct TableCell {
    pub kind: LineKind,
    pub cell: (u32, u32),
    pub generation: u64,
}

// A line's cell. A column or a row past 2^32 is outside every box.
fn table_cell(kind: LineKind, x: u64, y: u64, generation: u64) -> TableCell {
    let x = u32::try_from(x).unwrap_or(u32::MAX);
    let y = u32::try_from(y).unwrap_or(u32::MAX);
    TableCell {
        kind,
        cell: (x, y),
        generation,
    }
}

// Adds the cells of inputs or outputs, which are lit first at a generation, and answers whether memory ran out.
fn add_ports(
    cells: &mut Vec<TableCell>,
    kind: LineKind,
    lines: &[PortLine],
    generation: u64,
) -> bool {
    for line in lines {
        let cell = table_cell(kind, line.x, line.y, generation);
        if cells.push(cell).is_err() {
            return true;
        }
    }
    false
}

// Adds the cells of nets, and answers whether memory ran out.
fn add_nets(cells: &mut Vec<TableCell>, lines: &[NetLine]) -> bool {
    for line in lines {
        let cell = table_cell(LineKind::Net, line.x, line.y, line.offset);
        if cells.push(cell).is_err() {
            return true;
        }
    }
    false
}

/// Adds the cells of inputs, outputs and nets, in this order, and answers whether memory ran out.
pub fn add_table(cells: &mut Vec<TableCell>, ports: &Ports) -> bool {
    add_ports(cells, LineKind::In, ports.ins.as_slice(), 0)
        | add_ports(cells, LineKind::Out, ports.outs.as_slice(), ports.l)
        | add_nets(cells, ports.nets.as_slice())
}
