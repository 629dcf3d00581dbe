// The models of a text, each with what its lines say, by the BLIF report.
use lists::{Bytes, List};

/// A name, as the bytes of its word.
pub type Name = Bytes;

/// The edge at which a latch takes its data, by its type: `Rise` for `re`, `Fall` for `fe`. It
/// changes nothing in the meaning of the latch.
#[derive(Clone, Copy)]
pub enum Trigger {
    Rise,
    Fall,
}

/// A name in a list of ports, with the number of its line.
#[derive(Drop)]
pub struct Port {
    pub line: u64,
    pub name: Name,
}

/// A pin of a subckt line: `formal=actual`.
#[derive(Drop)]
pub struct Pin {
    pub formal: Name,
    pub actual: Name,
}

/// A `.names` line with its rows. `rows` has the characters before the output column, and `on` is
/// true if the rows end in `1` or there are none.
#[derive(Drop)]
pub struct Cover {
    pub line: u64,
    pub ins: List<Name>,
    pub out: Name,
    pub rows: List<Bytes>,
    pub on: bool,
}

/// A `.latch` line. `kind` and `control` are `None` if there is no control (or it is `NIL`), and
/// `init` is 0 to 3, or 3 if it is left out.
#[derive(Drop)]
pub struct LatchRow {
    pub line: u64,
    pub input: Name,
    pub output: Name,
    pub kind: Option<Trigger>,
    pub control: Option<Name>,
    pub init: u8,
}

/// A `.subckt` line: the name of the model that it places, and its pins.
#[derive(Drop)]
pub struct Subckt {
    pub line: u64,
    pub model: Name,
    pub pins: List<Pin>,
}

/// A model: its `.model` line, and what the lines up to its end say. Each list is in the order of
/// the text.
#[derive(Drop)]
pub struct Model {
    pub line: u64,
    pub name: Name,
    pub ins: List<Port>,
    pub outs: List<Port>,
    pub clocks: List<Port>,
    pub covers: List<Cover>,
    pub latches: List<LatchRow>,
    pub subckts: List<Subckt>,
}

/// The models of a text without a fault; the first is the main one.
#[derive(Drop)]
pub struct Design {
    pub models: List<Model>,
}
