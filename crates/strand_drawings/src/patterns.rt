// The pattern of a drawing.
ghost use Rattle.std.specs.Prelude.{◌≡◌, ◌<◌, ℕ, length, IsTrue};
ghost use Rattle.lists.specs.Items.{list_at};

use crate::boards::Board;
use gate_library::{Drawing, DrawnGate, DrawnWire, GateLibrary, Timing};
use lists::OutOfMemory;
use std::alloc::Global;
use ww_rule::{CellRows, Pattern, State};

// The cell of a gate's input, and the generation at which it is lit first.
fn input_of(library: &GateLibrary, gate: DrawnGate, input: u32) -> Option<((u32, u32), u32)> {
    let drawing = library.drawing(gate.kind);
    let found = drawing.ins.as_slice().get(input as usize)?;
    let later = match drawing.timing {
        Timing::Together => found.generation,
        Timing::Apart => gate.later.saturating_mul(input),
    };
    let cell = (
        gate.x.saturating_add(found.x),
        gate.y.saturating_add(found.y),
    );
    Some((cell, gate.first.saturating_add(later)))
}

// The cell of a path at a place.
fn cell_at(path: &[(u32, u32)], wire: &DrawnWire, place: u32) -> Option<(u32, u32)> {
    if place < wire.size {
        path.get((wire.start as usize).saturating_add(place as usize))
            .copied()
    } else {
        None
    }
}

// Draws the electron of a start bit that comes to the wire's end in so many generations.
fn put_electron(
    board: &mut Board,
    path: &[(u32, u32)],
    wire: &DrawnWire,
    end: (u32, u32),
    wait: u32,
) {
    let Some(place) = wire.size.checked_sub(wait) else {
        return;
    };
    let head = cell_at(path, wire, place).unwrap_or(end);
    board.put(head, State::Head);
    if let Some(tail) = cell_at(path, wire, place.wrapping_sub(1)) {
        board.put(tail, State::Tail);
    }
}

// Draws the electrons of a wire.
fn put_electrons(board: &mut Board, drawing: &Drawing, library: &GateLibrary, wire: &DrawnWire) {
    let Some(gate) = drawing.gates.as_slice().get(wire.gate as usize).copied() else {
        return;
    };
    let Some((end, first)) = input_of(library, gate, wire.input) else {
        return;
    };
    for later in 0..wire.cycles {
        let latch = wire
            .latch
            .saturating_add(wire.cycles)
            .saturating_sub(1)
            .saturating_sub(later);
        if let Some(true) = drawing.starts.as_slice().get(latch as usize) {
            let wait = first.saturating_add(later.saturating_mul(drawing.period));
            put_electron(board, drawing.path.as_slice(), wire, end, wait);
        }
    }
}

// The cells of a drawing, with the electrons of its start bits.
fn board_of(alloc: Global, drawing: &Drawing) -> Result<Board, OutOfMemory> {
    let mut board = Board::new(alloc, drawing.width, drawing.height)?;
    let library = GateLibrary::new(alloc)?;
    board.add_gates(&library, drawing.gates.as_slice());
    board.add_path(drawing.path.as_slice());
    for wire in drawing.wires.as_slice() {
        put_electrons(&mut board, drawing, &library, wire);
    }
    Ok(board)
}

// Whether all rows are so long.
fn are_long(rows: &CellRows, width: usize) -> bool
    ensures { IsTrue result → ((y : ℕ) → y < length rows.now →
        length (list_at rows.now y) ≡ width) }
{
    for y in 0..rows.len() {
        if rows.row(y).len() != width {
            return false;
        }
    }
    true
}

// The pattern of these rows, if they are a box of this size that has cells.
fn pattern_with(rows: CellRows, width: u32, height: u32) -> Option<Pattern> {
    if width == 0 || height == 0 {
        return None;
    }
    if rows.len() != height as usize || !are_long(&rows, width as usize) {
        return None;
    }
    Some(Pattern {
        width: u64::from(width),
        height: u64::from(height),
        rows,
    })
}

/// Makes the pattern of a drawing: its gates and wires, with the electrons of its start bits. A box without cells has none.
pub fn pattern_of(alloc: Global, drawing: &Drawing) -> Result<Option<Pattern>, OutOfMemory> {
    let Board {
        width,
        height,
        rows,
    } = board_of(alloc, drawing)?;
    Ok(pattern_with(rows, width, height))
}
