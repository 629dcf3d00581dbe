// The uses of nets, and the earliest use of a clock net.
ghost use Rattle.std.specs.Prelude.{◌≡◌, ◌<◌, flat_map, All, None};
ghost use Rattle.netlist_core.specs.declared.flat.Node as flat_node;
ghost use Rattle.netlist_meaning.specs.Flat.{IsNetId};
ghost use Rattle.clock_check.specs.Uses.{uses_on, uses_of_node, uses_of_latch, uses_of_outs, flat_uses, stands_before, earlier, earliest_with, earliest_among};

use netlist_core::{FlatLatch, FlatPort, NetId, Node};
use netlist_meaning::ClockClasses;

/// A word of a line that names a net: the line's number, the word's position, and the net.
#[derive(Clone, Copy)]
pub struct NetUse {
    pub line: u64,
    pub position: usize,
    pub net: NetId,
}

fn stands_before(a: NetUse, b: NetUse) -> bool
    ensures { result ≡ stands_before a b }
{
    a.line < b.line || (a.line == b.line && a.position < b.position)
}

fn earlier(found: Option<NetUse>, next: NetUse) -> NetUse
    ensures { result ≡ earlier found next }
{
    match found {
        None => next,
        Some(found) => {
            if stands_before(next, found) {
                next
            } else {
                found
            }
        }
    }
}

// The earliest use of a clock net so far, or one more use if that is of a clock net and earlier.
fn earliest_with(clocks: &ClockClasses, found: Option<NetUse>, next: NetUse) -> Option<NetUse>
    requires { IsNetId clocks.now next.net }
    ensures { result ≡ earliest_with clocks.now found next }
{
    if clocks.is_clock(next.net) {
        Some(earlier(found, next))
    } else {
        found
    }
}

// The earliest use of a clock net so far and among the words of a line.
fn earliest_on(
    clocks: &ClockClasses,
    found: Option<NetUse>,
    line: u64,
    nets: &[NetId],
) -> Option<NetUse>
    requires { All (IsNetId clocks.now) nets.now }
    ensures { result ≡ earliest_among clocks.now found (uses_on line 0 nets.now) }
{
    let mut found = found;
    for (position, net) in nets.iter().enumerate() {
        let next = NetUse {
            line,
            position,
            net: *net,
        };
        found = earliest_with(clocks, found, next);
    }
    found
}

fn earliest_in_node(clocks: &ClockClasses, found: Option<NetUse>, node: &Node) -> Option<NetUse>
    requires ins { All (IsNetId clocks.now) node.now.ins }
    requires out { IsNetId clocks.now node.now.out }
    ensures { result ≡ earliest_among clocks.now found (uses_of_node node.now) }
{
    let among_ins = earliest_on(clocks, found, node.line, node.ins.as_slice());
    let out = NetUse {
        line: node.line,
        position: node.ins.len(),
        net: node.out,
    };
    earliest_with(clocks, among_ins, out)
}

fn earliest_in_nodes(clocks: &ClockClasses, nodes: &[Node]) -> Option<NetUse>
    requires ins { All (λ (node : flat_node.Node). All (IsNetId clocks.now) node.ins) nodes.now }
    requires outs { All (λ (node : flat_node.Node). IsNetId clocks.now node.out) nodes.now }
    ensures { result ≡ earliest_among clocks.now None (flat_map uses_of_node nodes.now) }
{
    let mut found = None;
    for node in nodes {
        found = earliest_in_node(clocks, found, node);
    }
    found
}

fn earliest_in_latches(
    clocks: &ClockClasses,
    found: Option<NetUse>,
    latches: &[FlatLatch],
) -> Option<NetUse>
    requires { All (λ latch. IsNetId clocks.now latch.input ×
        IsNetId clocks.now latch.output) latches.now }
    ensures { result ≡ earliest_among clocks.now found (flat_map uses_of_latch latches.now) }
{
    let mut found = found;
    for latch in latches {
        found = earliest_on(clocks, found, latch.line, &[latch.input, latch.output]);
    }
    found
}

fn earliest_in_outs(
    clocks: &ClockClasses,
    found: Option<NetUse>,
    outs: &[FlatPort],
) -> Option<NetUse>
    requires { All (λ port. IsNetId clocks.now port.net) outs.now }
    ensures { result ≡ earliest_among clocks.now found (uses_of_outs 0 outs.now) }
{
    let mut found = found;
    for (position, port) in outs.iter().enumerate() {
        let next = NetUse {
            line: port.line,
            position,
            net: port.net,
        };
        found = earliest_with(clocks, found, next);
    }
    found
}

/// Finds the earliest use of a clock net by a node, as a latch's input or output, or as a main
/// output.
pub fn earliest_use(clocks: &ClockClasses) -> Option<NetUse>
    ensures { result ≡ earliest_among clocks.now None (flat_uses clocks.now) }
{
    let flat = clocks.flat();
    let in_nodes = earliest_in_nodes(clocks, flat.nodes.as_slice());
    let in_latches = earliest_in_latches(clocks, in_nodes, flat.latches.as_slice());
    earliest_in_outs(clocks, in_latches, flat.outs.as_slice())
}
