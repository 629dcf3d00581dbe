// The nodes: constant 0, the gates, and a buffer for what each latch reads next and for each
// output.
ghost use Rattle.std.specs.Prelude.{◌≡◌, ◌+◌, ◌<◌, ◌^◌, ◌∷◌, [], ◌++◌, length, map, IfOk, OnOk};
ghost use Rattle.aiger_text.specs.SoundAig.{sides_of};
ghost use Rattle.aiger_text.specs.declared.aig.AigLatch as latch_type;
ghost use Rattle.aiger_meaning.specs.Circuit.{aig_weight};
ghost use Rattle.aiger_meaning.specs.FlatOf.{first_gate, own_literals, net_id, net_of_literal, node_of, node_reads, nodes_from, row_character, buffer, zero_node};

use crate::literals::OwnLiterals;
use aiger_text::Aig;
use lists::{Bytes, List};
use netlist_core::{NetId, Node};
use std::alloc::{AllocError, Global};

// The character that a row has for a literal: `1`, or `0` if the literal is negated.
fn row_character(lit: u64) -> u8
    ensures { result ≡ row_character lit }
{
    if lit % 2 == 0 { b'1' } else { b'0' }
}

// The nets of literals.
fn nets_of(
    alloc: Global,
    aig: &Aig,
    known: &OwnLiterals,
    lits: &[u64],
) -> Result<Vec<NetId>, AllocError>
    requires own { known.now ≡ own_literals aig.now }
    requires few { length known.now < 2 ^ 32 }
    ensures { IfOk result (λ ids. ids.items ≡
        map (λ lit. net_id (net_of_literal aig.now lit)) lits.now) }
{
    let mut ids = Vec::with_capacity(alloc, lits.len())?;
    for lit in lits {
        ids.push(NetId(known.net(*lit) as u32))?;
    }
    Ok(ids)
}

// The row that holds when all literals are 1.
fn row_of(alloc: Global, lits: &[u64]) -> Result<Vec<u8>, AllocError>
    ensures { IfOk result (λ row. row.items ≡ map row_character lits.now) }
{
    let mut row = Vec::with_capacity(alloc, lits.len())?;
    for lit in lits {
        row.push(row_character(*lit))?;
    }
    Ok(row)
}

// A list of one row.
fn rows_of(alloc: Global, row: Vec<u8>) -> Result<List<Bytes>, AllocError>
    ensures { IfOk result (λ rows. rows ≡ row.items ∷ []) }
{
    let mut rows = Vec::with_capacity(alloc, 1)?;
    rows.push(Bytes::of(row))?;
    Ok(List::of(rows))
}

// A node that is 1 when all literals are 1.
fn node_of(
    alloc: Global,
    aig: &Aig,
    known: &OwnLiterals,
    lits: &[u64],
    out: u32,
) -> Result<Node, AllocError>
    requires own { known.now ≡ own_literals aig.now }
    requires few { length known.now < 2 ^ 32 }
    ensures { IfOk result (λ node. node ≡ node_of aig.now lits.now out) }
{
    let row = row_of(alloc, lits)?;
    Ok(Node {
        line: 0,
        ins: List::of(nets_of(alloc, aig, known, lits)?),
        out: NetId(out),
        rows: rows_of(alloc, row)?,
        on: true,
    })
}

// Adds a node whose output is the net after that of the last node.
fn push_node(
    nodes: &mut Vec<Node>,
    alloc: Global,
    aig: &Aig,
    known: &OwnLiterals,
    lits: &[u64],
) -> Result<(), AllocError>
    requires own { known.now ≡ own_literals aig.now }
    requires few { length known.now < 2 ^ 32 }
    requires room { length aig.now.inputs + length aig.now.latches + length nodes.old.items <
        2 ^ 32 }
    ensures { OnOk result (nodes.new.items ≡
        nodes.old.items ++ node_of aig.now lits.now
        (length aig.now.inputs + length aig.now.latches + length nodes.old.items) ∷ []) }
{
    let out = aig.inputs.len() + aig.latches.len() + nodes.len();
    nodes.push(node_of(alloc, aig, known, lits, out as u32)?)?;
    Ok(())
}

fn push_gates(
    nodes: &mut Vec<Node>,
    alloc: Global,
    aig: &Aig,
    known: &OwnLiterals,
) -> Result<(), AllocError>
    requires own { known.now ≡ own_literals aig.now }
    requires few { length known.now < 2 ^ 32 }
    requires room { length aig.now.inputs + length aig.now.latches + length nodes.old.items +
        length aig.now.ands < 2 ^ 32 }
    ensures { OnOk result (nodes.new.items ≡
        nodes.old.items ++ nodes_from aig.now
        (length aig.now.inputs + length aig.now.latches + length nodes.old.items)
        (map sides_of aig.now.ands)) }
{
    for gate in aig.ands.as_slice() {
        push_node(nodes, alloc, aig, known, &[gate.rhs0, gate.rhs1])?;
    }
    Ok(())
}

fn push_buffers(
    nodes: &mut Vec<Node>,
    alloc: Global,
    aig: &Aig,
    known: &OwnLiterals,
    lits: &[u64],
) -> Result<(), AllocError>
    requires own { known.now ≡ own_literals aig.now }
    requires few { length known.now < 2 ^ 32 }
    requires room { length aig.now.inputs + length aig.now.latches + length nodes.old.items +
        length lits.now < 2 ^ 32 }
    ensures { OnOk result (nodes.new.items ≡
        nodes.old.items ++ nodes_from aig.now
        (length aig.now.inputs + length aig.now.latches + length nodes.old.items)
        (map buffer lits.now)) }
{
    for lit in lits {
        push_node(nodes, alloc, aig, known, &[*lit])?;
    }
    Ok(())
}

// The literals that latches read next, and those that outputs read.
fn buffer_literals(alloc: Global, aig: &Aig) -> Result<Vec<u64>, AllocError>
    ensures { IfOk result (λ lits. lits.items ≡
        map (λ (latch : latch_type.AigLatch). latch.next) aig.now.latches ++ aig.now.outputs) }
{
    let mut lits = Vec::new(alloc);
    for latch in aig.latches.as_slice() {
        lits.push(latch.next)?;
    }
    lits.extend_from_slice(aig.outputs.as_slice())?;
    Ok(lits)
}

// Constant 0: a cover without rows.
fn zero_node(alloc: Global) -> Node
    ensures { result ≡ zero_node }
{
    Node {
        line: 0,
        ins: List::of(Vec::new(alloc)),
        out: NetId(0),
        rows: List::of(Vec::new(alloc)),
        on: true,
    }
}

/// Makes the nodes, in order.
pub fn nodes_of(alloc: Global, aig: &Aig, known: &OwnLiterals) -> Result<Vec<Node>, AllocError>
    requires own { known.now ≡ own_literals aig.now }
    requires small { aig_weight aig.now < 2 ^ 31 }
    ensures { IfOk result (λ nodes. nodes.items ≡
        zero_node ∷ nodes_from aig.now (first_gate aig.now) (node_reads aig.now)) }
{
    let buffers = buffer_literals(alloc, aig)?;
    let mut nodes = Vec::new(alloc);
    nodes.push(zero_node(alloc))?;
    push_gates(&mut nodes, alloc, aig, known)?;
    push_buffers(&mut nodes, alloc, aig, known, &buffers)?;
    Ok(nodes)
}
