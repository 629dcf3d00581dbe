// The text of a made netlist.
ghost use Rattle.std.specs.Prelude.{◌≡◌, ◌<◌, ◌≤◌, ◌^◌, ◌++◌, IfOk, OnOk, flat_map};
ghost use Rattle.made_netlists.specs.Text.{drawn_gate_text, head_text, made_state, made_text, names_text, net_name};

use crate::MakeError;
use crate::gate::{Gate, draw_gates};
use crate::generator::draw;
use itoa::Buffer;
use lists::Bytes;
use std::alloc::{AllocError, Global};

/// A netlist's text, and the state from which more may be drawn.
#[derive(Drop)]
pub struct Made {
    pub text: Bytes,
    pub state: u32,
}

// Adds the name of a net to a text.
fn push_name(text: &mut Vec<u8>, net: u32) -> Result<(), AllocError>
    ensures { OnOk result (text.new.items ≡ text.old.items ++ net_name net) }
{
    let (letter, number) = if net < 4 {
        (b'i', net)
    } else if net < 6 {
        (b'q', net - 4)
    } else {
        (b'g', net - 6)
    };
    let mut buffer = Buffer::new();
    text.push(letter)?;
    text.extend_from_slice(buffer.format(number).as_bytes())
}

// Adds the lines before the gates to a text.
fn push_head(text: &mut Vec<u8>, last: u32, latched: (u32, u32)) -> Result<(), AllocError>
    ensures { OnOk result (text.new.items ≡ text.old.items ++ head_text last latched.0 latched.1) }
{
    text.extend_from_slice(b".model made\n.inputs i0 i1 i2 i3\n.outputs ")?;
    push_name(text, last)?;
    text.extend_from_slice(b" q0 q1\n.latch ")?;
    push_name(text, latched.0)?;
    text.extend_from_slice(b" q0 0\n.latch ")?;
    push_name(text, latched.1)?;
    text.extend_from_slice(b" q1 1\n")
}

// Adds the `.names` line of a gate to a text.
fn push_names(text: &mut Vec<u8>, gate: Gate) -> Result<(), AllocError>
    ensures { OnOk result (text.new.items ≡
        text.old.items ++ names_text gate.first gate.second gate.out) }
{
    text.extend_from_slice(b".names ")?;
    push_name(text, gate.first)?;
    text.extend_from_slice(b" ")?;
    push_name(text, gate.second)?;
    text.extend_from_slice(b" ")?;
    push_name(text, gate.out)?;
    text.extend_from_slice(b"\n")
}

// Adds the lines of gates to a text.
fn push_gates(text: &mut Vec<u8>, gates: &[Gate]) -> Result<(), AllocError>
    ensures { OnOk result (text.new.items ≡ text.old.items ++ flat_map drawn_gate_text gates.now) }
{
    for gate in gates {
        push_names(text, *gate)?;
        text.extend_from_slice(gate.kind.rows())?;
    }
    Ok(())
}

/// Makes the text of a seed and a number of gates, and returns it with the state after its draws.
pub fn make(alloc: Global, seed: u32, size: u32) -> Result<Made, MakeError>
    requires seed { seed < 2 ^ 31 }
    requires some { 0 < size }
    requires few { size ≤ 128 }
    ensures text { IfOk result (λ made. made.text ≡ made_text seed size) }
    ensures state { IfOk result (λ made. made.state ≡ made_state seed size) }
    ensures range { IfOk result (λ made. made.state < 2 ^ 31) }
{
    let mut state = seed;
    let gates = draw_gates(alloc, &mut state, size)?;
    let first = draw(&mut state, 6 + size);
    let second = draw(&mut state, 6 + size);
    let mut text = Vec::new(alloc);
    push_head(&mut text, 5 + size, (first, second))?;
    push_gates(&mut text, &gates)?;
    text.extend_from_slice(b".end\n")?;
    Ok(Made {
        text: Bytes::of(text),
        state,
    })
}
