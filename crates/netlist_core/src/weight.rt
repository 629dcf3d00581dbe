//! The part of a design's weight that is one model's own.

ghost use Rattle.std.specs.Prelude.{◌≡◌, min};
ghost use Rattle.netlist_core.specs.Names.{is_named};
ghost use Rattle.netlist_core.specs.OwnWeight.{port_weight, literals, rows_weight, own_weight};

use crate::model::{Model, Port};
use lists::Bytes;

/// The greatest weight that a netlist may have.
pub const WEIGHT_LIMIT: u64 = 8192;

// Whether a port has the name.
fn is_named(ports: &[Port], name: &[u8]) -> bool
    ensures { result ≡ is_named ports.now name.now }
{
    ports.iter().any(|port| port.name.as_slice() == name)
}

// How many characters of a row are `0` or `1`.
fn literals(row: &[u8]) -> usize
    ensures { result ≡ literals row.now }
{
    row.iter()
        .filter(|character| **character == b'0' || **character == b'1')
        .count()
}

/// Returns the weight of a cover with these rows, or the greatest u64 if it is more: one for the
/// cover, one for each row, and one for each `0` and `1` in them.
pub fn rows_weight(rows: &[Bytes]) -> u64
    ensures { result ≡ min (rows_weight rows.now) u64.MAX }
{
    let mut weight = (rows.len() as u64).saturating_add(1);
    for row in rows {
        weight = weight.saturating_add(literals(row.as_slice()) as u64);
    }
    weight
}

// The weight of the ports: one for each port name.
fn port_weight(model: &Model) -> u64
    ensures { result ≡ min (port_weight model.now) u64.MAX }
{
    let ins = model.ins.as_slice();
    let clocks = model
        .clocks
        .as_slice()
        .iter()
        .filter(|clock| !is_named(ins, clock.name.as_slice()))
        .count();
    (ins.len() as u64)
        .saturating_add(model.outs.len() as u64)
        .saturating_add(clocks as u64)
}

/// Returns the part of the weight that is the model's own, or the greatest u64 if it is more: one
/// for each port name, two for each latch, one for each subckt line, and for each cover one, one
/// for each row, and one for each `0` and `1` in its rows.
pub fn weight_of(model: &Model) -> u64
    ensures { result ≡ min (own_weight model.now) u64.MAX }
{
    let mut weight = port_weight(model)
        .saturating_add((model.latches.len() as u64).saturating_mul(2))
        .saturating_add(model.subckts.len() as u64);
    for cover in model.covers.as_slice() {
        weight = weight.saturating_add(rows_weight(cover.rows.as_slice()));
    }
    weight
}
