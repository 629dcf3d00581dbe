// The value of a cover under bits for the classes of nets.
ghost use Rattle.std.specs.Prelude.{◌≡◌, ◌<◌, length, map, All};
ghost use Rattle.netlist_meaning.specs.CoverValue.{product_holds, any_holds, cover_value};
ghost use Rattle.netlist_meaning.specs.Flat.{IsInRange, IsNetId, class_of};
ghost use Rattle.netlist_eval.specs.Eval.{class_bit};
ghost use Rattle.netlist_meaning.specs.FlatValuation.{node_value};

use lists::Bytes;
use netlist_core::{Flat, NetId};
use netlist_meaning::{class_of, fits};

/// Returns the bit of a net, which is that of its class.
pub fn net_bit(flat: &Flat, bits: &[bool], net: NetId) -> bool
    requires in_range { IsInRange flat.now }
    requires bits { length bits.now ≡ length flat.now.nets }
    requires net { IsNetId flat.now net }
    ensures { result ≡ class_bit bits.now (class_of flat.now net) }
{
    bits[class_of(flat, net)]
}

fn product_holds(flat: &Flat, bits: &[bool], ins: &[NetId], row: &[u8]) -> bool
    requires in_range { IsInRange flat.now }
    requires bits { length bits.now ≡ length flat.now.nets }
    requires ins { All (IsNetId flat.now) ins.now }
    ensures { result ≡ product_holds row.now (map
        (λ net. class_bit bits.now (class_of flat.now net)) ins.now) }
{
    for (character, net) in row.iter().zip(ins) {
        if !fits(*character, net_bit(flat, bits, *net)) {
            return false;
        }
    }
    true
}

fn any_holds(flat: &Flat, bits: &[bool], ins: &[NetId], rows: &[Bytes]) -> bool
    requires in_range { IsInRange flat.now }
    requires bits { length bits.now ≡ length flat.now.nets }
    requires ins { All (IsNetId flat.now) ins.now }
    ensures { result ≡ any_holds rows.now (map
        (λ net. class_bit bits.now (class_of flat.now net)) ins.now) }
{
    rows.iter()
        .any(|row| product_holds(flat, bits, ins, row.as_slice()))
}

fn cover_bit(flat: &Flat, bits: &[bool], ins: &[NetId], rows: &[Bytes], on: bool) -> bool
    requires in_range { IsInRange flat.now }
    requires bits { length bits.now ≡ length flat.now.nets }
    requires ins { All (IsNetId flat.now) ins.now }
    ensures { result ≡ cover_value rows.now on
        (map (λ net. class_bit bits.now (class_of flat.now net)) ins.now) }
{
    if rows.is_empty() {
        return false;
    }
    any_holds(flat, bits, ins, rows) == on
}

/// Computes the value of a node's cover.
pub fn node_bit(flat: &Flat, bits: &[bool], n: usize) -> bool
    requires in_range { IsInRange flat.now }
    requires bits { length bits.now ≡ length flat.now.nets }
    requires node { n < length flat.now.nodes }
    ensures { result ≡ node_value flat.now (class_bit bits.now) n }
{
    let node = flat.nodes.get(n);
    cover_bit(
        flat,
        bits,
        node.ins.as_slice(),
        node.rows.as_slice(),
        node.on,
    )
}
