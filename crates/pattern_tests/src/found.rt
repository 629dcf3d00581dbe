// Tests of the search that finds gates and wires, and of the lines that name them.
use crate::pages::Page;
use gate_library::Drawing;
use pattern_reading::Ports;
use route_finder::{DrawingFault, FindError, find};
use route_lines::{gate_lines, read};
use ww_rule::Pattern;

// Appends the lines of a drawing.
fn push_lines(page: &mut Page, drawing: &Drawing) {
    match gate_lines(page.alloc(), drawing) {
        Ok(lines) => page.push(lines.as_slice()),
        Err(_) => page.cut(),
    }
}

fn fault_word(fault: DrawingFault) -> &'static [u8] {
    match fault {
        DrawingFault::Gate => b"Gate",
        DrawingFault::Wire => b"Wire",
        DrawingFault::Port => b"Port",
    }
}

// Appends what a search tells of a pattern: the lines of what it finds, or the fault and its cell.
fn push_found(page: &mut Page, pattern: &Pattern, ports: &Ports) {
    match find(page.alloc(), pattern, ports) {
        Ok(drawing) => {
            push_lines(page, &drawing);
            drop(drawing);
        }
        Err(FindError::Fault { kind, x, y }) => {
            page.push(fault_word(kind));
            page.push(b" ");
            page.push_number(u64::from(x));
            page.push(b" ");
            page.push_number(u64::from(y));
            page.push(b"\n");
        }
        Err(_) => page.cut(),
    }
}

// Appends the lines of what lines name, or these lines if they name nothing.
fn push_read(page: &mut Page, lines: &[u8], pattern: &Pattern, ports: &Ports) {
    match read(page.alloc(), lines, pattern, ports) {
        Ok(Some(drawing)) => {
            push_lines(page, &drawing);
            drop(drawing);
        }
        Ok(None) => page.push(lines),
        Err(_) => page.cut(),
    }
}

// Notes it unless a pattern is told as it should be, and appends what is read of the lines as they are written.
fn push_told(page: &mut Page, wanted: &[u8], pattern: &Pattern, ports: &Ports) {
    push_found(page, pattern, ports);
    page.expect(wanted);
    push_read(page, wanted, pattern, ports);
}

/// Notes it unless what is found in a pattern is wanted, and appends what is read of the wanted lines.
pub fn push_pattern(page: &mut Page, text: &str, wanted: &str, pattern: &Pattern) {
    match port_table::read(page.alloc(), text.as_bytes(), pattern.width, pattern.height) {
        Ok(ports) => {
            push_told(page, wanted.as_bytes(), pattern, &ports);
            drop(ports);
        }
        Err(_) => page.cut(),
    }
}
