// Divisors: the sources of which a cell may be made.
use crate::cuts::Cut;
use crate::windows::Window;
use cell_core::{Draws, Src};

/// A source, and its table over the leaves.
#[derive(Clone, Copy)]
pub struct Divisor {
    pub src: Src,
    pub word: u64,
}

// Whether a source stays if these cells go.
fn stays(src: Src, gone: &[u32]) -> bool {
    match src {
        Src::Cell(i) => !gone.contains(&i),
        Src::Input(_) | Src::Latch(_) | Src::One | Src::Zero => true,
    }
}

// Adds a source that does not go, if its table is known. Returns whether memory was refused.
fn add(divisors: &mut Vec<Divisor>, window: &Window, gone: &[u32], src: Src) -> bool {
    match window.word(src) {
        Some(word) if stays(src, gone) => divisors.push(Divisor { src, word }).is_err(),
        _ => false,
    }
}

/// Adds the leaves and the cells of a window that do not go, and constant 1 if it may be read. Returns whether memory
/// was refused.
pub fn add_divisors(
    divisors: &mut Vec<Divisor>,
    cut: &Cut,
    window: &Window,
    gone: &[u32],
    has_one: bool,
) -> bool {
    let mut is_refused = false;
    for leaf in &cut.leaves {
        is_refused |= add(divisors, window, gone, *leaf);
    }
    for number in &window.order {
        is_refused |= add(divisors, window, gone, Src::Cell(*number));
    }
    if has_one {
        is_refused |= add(divisors, window, gone, Src::One);
    }
    is_refused
}

/// Puts the divisors in a random order.
pub fn shuffle(divisors: &mut [Divisor], draws: &mut Draws) {
    for k in 0..divisors.len() {
        let last = divisors.len() - 1 - k;
        let place = draws.below(last + 1);
        if place < divisors.len() {
            divisors.swap(place, last);
        }
    }
}
