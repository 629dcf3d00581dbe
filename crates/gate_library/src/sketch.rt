// The gates' drawings as texts, with the signals running east. A `.` is an empty cell; `a` and `b`
// are the first and the second input, the letters from `t` on are outputs, and `C` is any other
// conductor. A lone cell is its input and its output.
use crate::gate::{Answer, Timing};
use crate::kind::Shape;

/// A shape as a text, whose rows from north to south have a space between them; the generation at
/// which each input is lit; the delay of all outputs, and each one's letter and answer; and the
/// generations after which the gate may be used again.
pub struct Sketch {
    pub width: u32,
    pub height: u32,
    pub rows: &'static [u8],
    pub ins: &'static [u32],
    pub delay: u32,
    pub outs: &'static [(u8, Answer)],
    pub time: u32,
    pub timing: Timing,
}

const LONE: &Sketch = &Sketch {
    width: 1,
    height: 1,
    rows: b"a",
    ins: &[0],
    delay: 0,
    outs: &[(b'a', Answer::Copy(0))],
    time: 3,
    timing: Timing::Together,
};

const FORK: &Sketch = &Sketch {
    width: 3,
    height: 5,
    rows: b"..y .C. a.. .C. ..z",
    ins: &[0],
    delay: 2,
    outs: &[(b'y', Answer::Copy(0)), (b'z', Answer::Copy(0))],
    time: 3,
    timing: Timing::Together,
};

const OR: &Sketch = &Sketch {
    width: 3,
    height: 5,
    rows: b"a.. .C. CCy .C. b..",
    ins: &[0, 0],
    delay: 2,
    outs: &[(b'y', Answer::Or(0, 1))],
    time: 3,
    timing: Timing::Together,
};

const XOR: &Sketch = &Sketch {
    width: 5,
    height: 7,
    rows: b"a.... .C... CCCC. C..Cy CCCC. .C... b....",
    ins: &[0, 0],
    delay: 4,
    outs: &[(b'y', Answer::Xor(0, 1))],
    time: 5,
    timing: Timing::Together,
};

const XOR_TWICE: &Sketch = &Sketch {
    width: 5,
    height: 5,
    rows: b"a.C.y .CCC. C...C .CCC. z.C.b",
    ins: &[0, 0],
    delay: 4,
    outs: &[(b'y', Answer::Xor(0, 1)), (b'z', Answer::Xor(0, 1))],
    time: 5,
    timing: Timing::Together,
};

const AND_NOT: &Sketch = &Sketch {
    width: 3,
    height: 5,
    rows: b"a.y .C. CCC .C. b..",
    ins: &[2, 0],
    delay: 4,
    outs: &[(b'y', Answer::AndNot(0, 1))],
    time: 5,
    timing: Timing::Together,
};

const AND_NOT_LEVEL: &Sketch = &Sketch {
    width: 5,
    height: 7,
    rows: b"a.... .C... CCC.. C..C. CCCCy .C.C. b....",
    ins: &[0, 0],
    delay: 4,
    outs: &[(b'y', Answer::AndNot(0, 1))],
    time: 5,
    timing: Timing::Together,
};

const CROSS: &Sketch = &Sketch {
    width: 5,
    height: 7,
    rows: b"a.... .C.C. CCCCy C..C. CCCCz .C.C. b....",
    ins: &[0, 0],
    delay: 4,
    outs: &[(b'y', Answer::Copy(1)), (b'z', Answer::Copy(0))],
    time: 5,
    timing: Timing::Apart,
};

const TAP: &Sketch = &Sketch {
    width: 5,
    height: 7,
    rows: b"a.... .C.C. CCCCy C..C. CCCCz .C.C. b...u",
    ins: &[0, 0],
    delay: 4,
    outs: &[
        (b'y', Answer::Copy(1)),
        (b'z', Answer::Copy(0)),
        (b'u', Answer::Copy(1)),
    ],
    time: 5,
    timing: Timing::Apart,
};

const TAP_TWICE: &Sketch = &Sketch {
    width: 5,
    height: 7,
    rows: b"a...t .C.C. CCCCy C..C. CCCCz .C.C. b...u",
    ins: &[0, 0],
    delay: 4,
    outs: &[
        (b'y', Answer::Copy(1)),
        (b'z', Answer::Copy(0)),
        (b'u', Answer::Copy(1)),
        (b't', Answer::Copy(0)),
    ],
    time: 5,
    timing: Timing::Apart,
};

/// Returns the drawing of a shape.
pub fn sketch_of(shape: Shape) -> &'static Sketch {
    match shape {
        Shape::Lone => LONE,
        Shape::Fork => FORK,
        Shape::Or => OR,
        Shape::Xor => XOR,
        Shape::XorTwice => XOR_TWICE,
        Shape::AndNot => AND_NOT,
        Shape::AndNotLevel => AND_NOT_LEVEL,
        Shape::Cross => CROSS,
        Shape::Tap => TAP,
        Shape::TapTwice => TAP_TWICE,
    }
}
