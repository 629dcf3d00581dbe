// A netlist without its hierarchy: nets in classes, and the nodes and latches between them.
use crate::model::{Name, Trigger};
use lists::{Bytes, List};

/// The number of a net: its position in the nets of a flat netlist.
#[derive(Clone, Copy)]
pub struct NetId(pub u32);

/// A net: its place in the design, its name there, and the number of its class of joined nets. In
/// the flat netlist of a design this number is the position of the class's net that is nearest the
/// main model.
#[derive(Drop)]
pub struct Net {
    pub place: List<u32>,
    pub name: Name,
    pub class: u32,
}

/// A port of the main model, with the number of its line.
#[derive(Clone, Copy)]
pub struct FlatPort {
    pub line: u64,
    pub net: NetId,
}

/// A cover in one of its places: it reads the nets `ins` and drives the net `out`. `rows` and `on`
/// are as in `Cover`.
#[derive(Drop)]
pub struct Node {
    pub line: u64,
    pub ins: List<NetId>,
    pub out: NetId,
    pub rows: List<Bytes>,
    pub on: bool,
}

/// A latch in one of its places. `kind` and `control` are `None` if it has no control, and `init`
/// is 0 to 3.
#[derive(Clone, Copy)]
pub struct FlatLatch {
    pub line: u64,
    pub input: NetId,
    pub output: NetId,
    pub kind: Option<Trigger>,
    pub control: Option<NetId>,
    pub init: u8,
}

/// A flat netlist. `ins` are the nets of the IN names, `outs` those of the main model's outputs,
/// `clocks` those of its `.clock` names, and `control` is that of the first latch. Nets are in the
/// order of their places, and in one place in the order in which the model's text first names them;
/// nodes and latches are in the order of their places and lines. Port tables list the nets if
/// `listed` is true, as it is for the flat netlist of a design.
#[derive(Drop)]
pub struct Flat {
    pub nets: List<Net>,
    pub ins: List<FlatPort>,
    pub outs: List<FlatPort>,
    pub clocks: List<FlatPort>,
    pub nodes: List<Node>,
    pub latches: List<FlatLatch>,
    pub control: Option<NetId>,
    pub weight: u64,
    pub listed: bool,
}

/// The positions of a flat netlist's nodes, each after the nodes that drive what it reads.
#[derive(Drop)]
pub struct Order {
    pub nodes: List<u32>,
}
