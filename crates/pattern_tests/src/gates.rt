// Tests that each drawing in each turn keeps its law, and of the page of all gates.
use crate::pages::Page;
use gate_laws::{keeps_crossing_law, keeps_law};
use gate_library::{
    Answer, GateDrawing, GateKind, GateLibrary, SHAPES, Shape, TURNS, Timing, Turn, kind_named,
    letter_of, word_of,
};
use page::PAGE;
use std::str::from_utf8;
use ww_rule::State;

mod page;

// Whether a drawing keeps its law with this time.
fn keeps(drawing: &GateDrawing, time: u32) -> bool {
    let (cells, width) = (drawing.cells.as_slice(), drawing.width as usize);
    let (ins, outs) = (drawing.ins.as_slice(), drawing.outs.as_slice());
    match drawing.timing {
        Timing::Together => keeps_law(cells, width, ins, outs, time as usize),
        Timing::Apart => match ins {
            [a, b] => {
                keeps_crossing_law(cells, width, (a.x, a.y), (b.x, b.y), outs, time as usize)
            }
            _ => false,
        },
    }
}

// Whether a drawing keeps its law with its time, and not with less.
fn is_timed(drawing: &GateDrawing) -> bool {
    keeps(drawing, drawing.time) && !keeps(drawing, drawing.time.saturating_sub(1))
}

// The first kind whose drawing does not keep its law with its time, or also with less.
fn first_fault(library: &GateLibrary) -> Option<GateKind> {
    for shape in SHAPES {
        for turn in TURNS {
            let kind = GateKind {
                shape: *shape,
                turn: *turn,
            };
            if !is_timed(library.drawing(kind)) {
                return Some(kind);
            }
        }
    }
    None
}

// The letter of an output.
fn output_letter(number: usize) -> u8 {
    match number {
        0 => b'y',
        1 => b'z',
        2 => b'u',
        _ => b't',
    }
}

fn input_letter(number: usize) -> u8 {
    if number == 0 { b'a' } else { b'b' }
}

// The letter of a cell in a drawing.
fn letter(drawing: &GateDrawing, state: State, x: u32, y: u32) -> u8 {
    for (i, input) in drawing.ins.as_slice().iter().enumerate() {
        if (input.x, input.y) == (x, y) {
            return input_letter(i);
        }
    }
    for (o, output) in drawing.outs.as_slice().iter().enumerate() {
        if (output.x, output.y) == (x, y) {
            return output_letter(o);
        }
    }
    if state == State::Empty { b'.' } else { b'C' }
}

fn push_picture(page: &mut Page, drawing: &GateDrawing) {
    page.push(b"\n```text\n");
    let (mut x, mut y) = (0u32, 0u32);
    for state in drawing.cells.as_slice() {
        page.push_byte(letter(drawing, *state, x, y));
        x = x.saturating_add(1);
        if x == drawing.width {
            page.push(b"\n");
            (x, y) = (0, y.saturating_add(1));
        }
    }
    page.push(b"```\n");
}

fn push_answer(page: &mut Page, answer: Answer) {
    page.push(match answer {
        Answer::Copy(0) => b"a",
        Answer::Copy(_) => b"b",
        Answer::Or(_, _) => b"a or b",
        Answer::Xor(_, _) => b"a xor b",
        Answer::AndNot(_, _) => b"a and not b",
    });
}

// Begins the row of a port that is lit at this generation.
fn push_port(page: &mut Page, letter: u8, generation: u32) {
    page.push(b"| `");
    page.push_byte(letter);
    page.push(b"` | ");
    page.push_number(u64::from(generation));
    page.push(b" | ");
}

fn push_inputs(page: &mut Page, drawing: &GateDrawing) {
    for (i, input) in drawing.ins.as_slice().iter().enumerate() {
        push_port(page, input_letter(i), input.generation);
        page.push(b"|\n");
    }
}

fn push_outputs(page: &mut Page, drawing: &GateDrawing) {
    let answers = drawing.answers.as_slice();
    for (o, output) in drawing.outs.as_slice().iter().enumerate() {
        push_port(page, output_letter(o), output.delay);
        if let Some(answer) = answers.get(o) {
            push_answer(page, *answer);
        }
        page.push(b" |\n");
    }
}

fn drawn_count(cells: &[State]) -> u64 {
    let mut count = 0u64;
    for state in cells {
        if *state != State::Empty {
            count = count.saturating_add(1);
        }
    }
    count
}

fn push_sizes(page: &mut Page, drawing: &GateDrawing) {
    let cells = drawing.cells.as_slice();
    let height = cells.len().checked_div(drawing.width as usize).unwrap_or(0);
    page.push(b"\nTime ");
    page.push_number(u64::from(drawing.time));
    page.push(b", box ");
    page.push_number(u64::from(drawing.width));
    page.push(b" x ");
    page.push_number(height as u64);
    page.push(b", cells ");
    page.push_number(drawn_count(cells));
    page.push(match drawing.timing {
        Timing::Together => b".\n",
        Timing::Apart => b", inputs apart.\n",
    });
}

// Adds a gate's part of the page, up to the end of its drawing.
fn push_section(page: &mut Page, shape: Shape, drawing: &GateDrawing) {
    page.push(b"## ");
    page.push(word_of(shape));
    page.push(b"\n\n| Port | Lit at | Bit |\n|---|---|---|\n");
    push_inputs(page, drawing);
    push_outputs(page, drawing);
    push_sizes(page, drawing);
    push_picture(page, drawing);
}

// Whether the page of all gates has this part.
fn has_part(part: &[u8]) -> bool {
    match from_utf8(part) {
        Ok(part) => PAGE.contains(part),
        Err(_) => false,
    }
}

// Notes a gate's part unless it is on the page of all gates.
fn expect_section(page: &mut Page, library: &GateLibrary, shape: Shape) {
    let kind = GateKind {
        shape,
        turn: Turn::East,
    };
    push_section(page, shape, library.drawing(kind));
    if has_part(page.said()) {
        page.clear();
    }
    page.expect(b"");
}

fn push_name(page: &mut Page, kind: GateKind) {
    page.push(word_of(kind.shape));
    page.push(b"-");
    page.push_byte(letter_of(kind.turn));
}

// Notes a kind whose drawing is at fault, each part that is not on the page of all gates, and each name that is not
// read.
fn expect_library(page: &mut Page, library: &GateLibrary) {
    if let Some(kind) = first_fault(library) {
        push_name(page, kind);
    }
    page.expect(b"");
    for shape in SHAPES {
        expect_section(page, library, *shape);
        expect_names(page, *shape);
    }
}

// Notes the name that is written of a kind unless it is read as the name of this kind.
fn expect_name(page: &mut Page, kind: GateKind) {
    push_name(page, kind);
    if kind_named(page.said()) == Some(kind) {
        page.clear();
    }
    page.expect(b"");
}

// Notes a name if it is read as that of a kind.
fn expect_no_name(page: &mut Page, name: &[u8]) {
    if kind_named(name).is_some() {
        page.push(name);
    }
    page.expect(b"");
}

fn expect_names(page: &mut Page, shape: Shape) {
    for turn in TURNS {
        expect_name(page, GateKind { shape, turn: *turn });
    }
}

/// Notes it unless each drawing keeps its law with its time and is on the page, and names are read.
pub fn expect_gates(page: &mut Page) {
    match GateLibrary::new(page.alloc()) {
        Ok(library) => {
            expect_library(page, &library);
            drop(library);
        }
        Err(_) => page.cut(),
    }
    expect_no_name(page, b"CROSS-X");
    expect_no_name(page, b"CROSS");
}
