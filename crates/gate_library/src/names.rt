// The names of kinds: the word of a shape, a hyphen, and the letter of a turn.

use crate::kind::{GateKind, Shape, Turn};

/// All shapes, in order.
pub const SHAPES: &[Shape] = &[
    Shape::Lone,
    Shape::Fork,
    Shape::Or,
    Shape::Xor,
    Shape::XorTwice,
    Shape::AndNot,
    Shape::AndNotLevel,
    Shape::Cross,
    Shape::Tap,
    Shape::TapTwice,
];

/// All turns, in order.
pub const TURNS: &[Turn] = &[
    Turn::East,
    Turn::EastMirrored,
    Turn::South,
    Turn::SouthMirrored,
    Turn::West,
    Turn::WestMirrored,
    Turn::North,
    Turn::NorthMirrored,
];

/// Returns the word of a shape.
pub fn word_of(shape: Shape) -> &'static [u8] {
    match shape {
        Shape::Lone => b"LONE",
        Shape::Fork => b"FORK",
        Shape::Or => b"OR",
        Shape::Xor => b"XOR",
        Shape::XorTwice => b"XOR2",
        Shape::AndNot => b"ANDNOT",
        Shape::AndNotLevel => b"ANDNOT-LEVEL",
        Shape::Cross => b"CROSS",
        Shape::Tap => b"TAP",
        Shape::TapTwice => b"TAP2",
    }
}

/// Returns the letter of a turn: that of the direction in which the signals run, which is small if
/// the drawing is mirrored.
pub fn letter_of(turn: Turn) -> u8 {
    match turn {
        Turn::East => b'E',
        Turn::EastMirrored => b'e',
        Turn::South => b'S',
        Turn::SouthMirrored => b's',
        Turn::West => b'W',
        Turn::WestMirrored => b'w',
        Turn::North => b'N',
        Turn::NorthMirrored => b'n',
    }
}

fn turn_of(letter: u8) -> Option<Turn> {
    for turn in TURNS {
        if letter_of(*turn) == letter {
            return Some(*turn);
        }
    }
    None
}

fn shape_of(word: &[u8]) -> Option<Shape> {
    for shape in SHAPES {
        if word_of(*shape) == word {
            return Some(*shape);
        }
    }
    None
}

/// Returns the kind with this name: the word of its shape, a hyphen, and the letter of its turn.
pub fn kind_named(name: &[u8]) -> Option<GateKind> {
    match name {
        [word @ .., b'-', letter] => match (shape_of(word), turn_of(*letter)) {
            (Some(shape), Some(turn)) => Some(GateKind { shape, turn }),
            _ => None,
        },
        _ => None,
    }
}
