// The gates of a made netlist.
ghost use Rattle.std.specs.Prelude.{◌≡◌, ◌<◌, ◌^◌, ◌*◌, IfOk};
ghost use Rattle.made_netlists.specs.Draws.{draw_after, state_after};
ghost use Rattle.made_netlists.specs.Text.{drawn_gates, drawn_kind, net_of_gate, kind_rows};

use crate::generator::draw;
use std::alloc::{AllocError, Global};

/// What a gate computes of its two inputs.
#[derive(Clone, Copy)]
pub enum GateKind {
    And,
    Or,
    Xor,
    Nand,
}

impl GateKind {
    // The kind that a drawn number gives.
    fn of(number: u32) -> GateKind
        ensures { result ≡ drawn_kind number }
    {
        match number {
            0 => GateKind::And,
            1 => GateKind::Or,
            2 => GateKind::Xor,
            _ => GateKind::Nand,
        }
    }

    /// Returns the rows of the gate's cover, each with its line end.
    pub fn rows(self) -> &'static [u8]
        ensures { result.now ≡ kind_rows self }
    {
        match self {
            GateKind::And => b"11 1\n",
            GateKind::Or => b"1- 1\n-1 1\n",
            GateKind::Xor => b"10 1\n01 1\n",
            GateKind::Nand => b"11 0\n",
        }
    }
}

/// A gate, with the numbers of the two nets that it reads, and of its own net.
#[derive(Clone, Copy)]
pub struct Gate {
    pub kind: GateKind,
    pub first: u32,
    pub second: u32,
    pub out: u32,
}

// Draws the gate that comes after `before` others.
fn draw_gate(state: &mut u32, before: u32) -> Gate
    requires state { state.old < 2 ^ 31 }
    requires few { before < 2 ^ 31 }
    ensures kind { result.kind ≡ drawn_kind (draw_after state.old 0 4) }
    ensures first { result.first ≡ draw_after state.old 1 (net_of_gate before) }
    ensures out { result.out ≡ net_of_gate before }
    ensures second { result.second ≡ draw_after state.old 2 (net_of_gate before) }
    ensures state { state.new ≡ state_after state.old 3 }
    ensures range { state.new < 2 ^ 31 }
{
    let kind = GateKind::of(draw(state, 4));
    let first = draw(state, 6 + before);
    let second = draw(state, 6 + before);
    Gate {
        kind,
        first,
        second,
        out: 6 + before,
    }
}

/// Draws `size` gates.
pub fn draw_gates(alloc: Global, state: &mut u32, size: u32) -> Result<Vec<Gate>, AllocError>
    requires state { state.old < 2 ^ 31 }
    requires few { size < 2 ^ 31 }
    ensures gates { IfOk result (λ gates. gates.items ≡ drawn_gates state.old size) }
    ensures state { IfOk result (λ gates. state.new ≡ state_after state.old (3 * size)) }
    ensures range { IfOk result (λ gates. state.new < 2 ^ 31) }
{
    let mut gates = Vec::with_capacity(alloc, size as usize)?;
    for j in 0..size {
        gates.push(draw_gate(state, j))?;
    }
    Ok(gates)
}
