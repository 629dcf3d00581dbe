// The words of the lines.

use crate::steps::{STEPS, Step};

/// Returns the step with a word.
pub fn step_named(word: &[u8]) -> Option<Step> {
    for step in STEPS {
        if step.word() == word {
            return Some(*step);
        }
    }
    None
}

/// Returns the step from one cell to another beside it.
pub fn step_between(from: (u32, u32), to: (u32, u32)) -> Option<Step> {
    for step in STEPS {
        if step.from(from) == to {
            return Some(*step);
        }
    }
    None
}

/// Returns a word of a line by its number from 0, without the spaces around it, or no bytes if there is none.
pub fn word(line: &[u8], number: usize) -> &[u8] {
    let (mut begin, mut end, mut before) = (0usize, 0usize, 0usize);
    for byte in line {
        let is_space = *byte == b' ';
        if is_space && begin < end {
            if before == number {
                break;
            }
            before = before.saturating_add(1);
        }
        end = end.saturating_add(1);
        if is_space {
            begin = end;
        }
    }
    if before == number {
        line.get(begin..end).unwrap_or(&[])
    } else {
        &[]
    }
}
