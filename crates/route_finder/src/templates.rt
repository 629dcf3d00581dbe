// The drawings of gates, as they are near one of their cells.

use gate_library::{DrawnGate, GateKind, GateLibrary, SHAPES, Shape, TURNS};
use route_lines::{Owner, Owners};
use std::alloc::Global;

// The columns and the rows of a sheet: those of the largest drawing, and one more on each side.
const SIDE: u32 = 9;

/// A cell in or around the drawing with this number, from whose north-west corner it is so many columns east and rows
/// south, modulo 2^32; and whether it is drawn.
#[derive(Clone, Copy)]
pub struct Near {
    pub template: usize,
    pub x: u32,
    pub y: u32,
    pub is_drawn: bool,
}

/// A drawing: the column and the row of one of its cells that is no port, how many cells beside this are drawn, and the
/// places in a list of what stands in and around the drawing.
#[derive(Clone, Copy)]
pub struct Template {
    pub kind: GateKind,
    pub x: u32,
    pub y: u32,
    pub beside: u32,
    pub start: usize,
    pub end: usize,
}

/// The drawings of all kinds but lone cells and forks, which are a lone cell and wires. It is noted whether memory ran
/// out.
#[derive(Drop)]
pub struct Templates {
    pub all: Vec<Template>,
    pub nears: Vec<Near>,
    pub is_short: bool,
}

impl Templates {
    /// Returns those of a library.
    pub fn of(alloc: Global, library: &GateLibrary) -> Templates {
        let mut templates = Templates {
            all: Vec::new(alloc),
            nears: Vec::new(alloc),
            is_short: false,
        };
        let mut sheet = Owners::new(alloc, SIDE);
        for shape in SHAPES {
            for turn in TURNS {
                let (shape, turn) = (*shape, *turn);
                if !matches!(shape, Shape::Lone | Shape::Fork) {
                    templates.add(library, &mut sheet, GateKind { shape, turn });
                }
            }
        }
        drop(sheet);
        templates
    }

    // Adds the drawing of a kind, which is drawn on the sheet.
    fn add(&mut self, library: &GateLibrary, sheet: &mut Owners, kind: GateKind) {
        self.is_short |= sheet.clear((SIDE * SIDE) as usize);
        let gate = DrawnGate {
            kind,
            x: 1,
            y: 1,
            first: 0,
            later: 0,
        };
        sheet.draw(library.drawing(kind), gate, 0);
        let start = self.nears.len();
        let (x, y, beside) = self.add_nears(sheet);
        let template = Template {
            kind,
            x,
            y,
            beside,
            start,
            end: self.nears.len(),
        };
        self.is_short |= self.all.push(template).is_err();
    }

    // Adds all cells of the drawing on the sheet, and all empty ones beside those that are no ports. Returns the cell
    // that is no port and has the most cells beside it, and how many these are.
    fn add_nears(&mut self, sheet: &Owners) -> (u32, u32, u32) {
        let template = self.all.len();
        let mut best = (0, 0, 0);
        for number in 0..sheet.count() {
            let cell = sheet.cell(number);
            let (owner, beside) = (sheet.of(cell), sheet.beside(cell));
            let (x, y) = (cell.0.wrapping_sub(1), cell.1.wrapping_sub(1));
            let is_drawn = !matches!(owner, Owner::Nobody);
            if is_drawn || beside.inner > 0 {
                let near = Near {
                    template,
                    x,
                    y,
                    is_drawn,
                };
                self.is_short |= self.nears.push(near).is_err();
            }
            if matches!(owner, Owner::Inner) && beside.drawn > best.2 {
                best = (x, y, beside.drawn);
            }
        }
        best
    }
}
