// Port tables as values.
ghost use Rattle.std.specs.Prelude.{◌≡◌, IfOk};
ghost use Rattle.pattern_reading.specs.Ports.{names_of};

use lists::{Bytes, List, copied};
use std::alloc::{AllocError, Global};

/// The versions of port tables, which differ in how they write names. Version 1 writes them as they
/// are. Version 2, in which tables are written, has an escape for each byte outside 33 to 126 and
/// for each `%`: `%` and two hexadecimal digits. Its reader takes every byte but `%` as it stands.
#[derive(Clone, Copy)]
pub enum TableVersion {
    /// Version 1: names as they are.
    Raw,
    /// Version 2: names with escapes.
    Escaped,
}

/// A port: the name of an input or an output, and its cell.
#[derive(Drop)]
pub struct PortLine {
    pub x: u64,
    pub y: u64,
    pub name: Bytes,
}

/// A net: the cell at which it can be seen, the generation at which its bit of cycle 0 shows there,
/// its name, and the path of its model, which is `-` for the main model.
#[derive(Drop)]
pub struct NetLine {
    pub x: u64,
    pub y: u64,
    pub offset: u64,
    pub name: Bytes,
    pub path: Bytes,
}

/// A port table: the period `p` and the latency `l` of the pattern, in generations, the number `c`
/// of contexts, which are machines that run through the same wires, each 32 generations after the
/// one before, and the ports and nets in the order of the text.
#[derive(Drop)]
pub struct Ports {
    pub p: u64,
    pub l: u64,
    pub c: u64,
    pub ins: List<PortLine>,
    pub outs: List<PortLine>,
    pub nets: List<NetLine>,
}

/// Copies the names of ports, in order.
pub fn names_of(alloc: Global, ports: &[PortLine]) -> Result<Vec<Bytes>, AllocError>
    ensures { IfOk result (λ names. names.items ≡ names_of ports.now) }
{
    let mut names = Vec::new(alloc);
    for port in ports {
        names.push(copied(alloc, port.name.as_slice())?)?;
    }
    Ok(names)
}
