// Whether each input is fed once.
ghost use Rattle.std.specs.Prelude.{◌≡◌, ◌<◌, ℕ, length, Some, slice_get, IsTrue, IfOk};
ghost use Rattle.route_tables.specs.Tables.{sourced_gate, sourced_by, table_gate, table_wire};
ghost use Rattle.route_tables.specs.Cells.{IsFed, FeedsItsEnd, IsDrivenInput, IsFedRightly};
ghost use Rattle.route_tables.specs.declared.tables.GateInput.{GateInput};
ghost use Rattle.route_tables.specs.declared.tables.Feed.TheVariants.{Wire, Driven};

use crate::{CellFault, FaultWord, Feed, GateInput, Tables, input_port};

fn is_fed_by_wire(tables: &Tables, at: GateInput, w: usize) -> bool
    ensures { IsTrue result → IsFed tables.now at (Wire w) }
{
    match tables.feed(at) {
        Some(Feed::Wire(wire)) => wire as usize == w,
        Some(Feed::Driven(_)) | None => false,
    }
}

/// Tests that the input at the end of each wire is fed by this wire.
pub fn are_ends_fed(tables: &Tables) -> Result<(), CellFault>
    ensures { IfOk result (λ _. (w : ℕ) → w < length tables.now.wires → FeedsItsEnd tables.now w) }
{
    for w in 0..tables.wires.len() {
        if !is_fed_by_wire(tables, tables.wire(w).to, w) {
            return Err(tables.fault_at_wire(FaultWord::Fed, w));
        }
    }
    Ok(())
}

fn is_driven_input(tables: &Tables, d: usize, at: GateInput) -> bool
    ensures { IsTrue result → IsDrivenInput tables.now d at }
{
    match (tables.port(input_port(at)), tables.feed(at)) {
        (Some(_), Some(Feed::Driven(drive))) => drive as usize == d,
        _ => false,
    }
}

/// Tests that the driven inputs are inputs that their drives feed.
pub fn are_drives_fed(tables: &Tables) -> Result<(), CellFault>
    ensures { IfOk result (λ _. (d : ℕ) → d < length tables.now.driven → (at : GateInput) →
        slice_get tables.now.driven d ≡ Some at → IsDrivenInput tables.now d at) }
{
    for d in 0..tables.driven.len() {
        let at = *tables.driven.get(d);
        if !is_driven_input(tables, d, at) {
            return Err(tables.fault_at_gate(FaultWord::Fed, at.gate as usize));
        }
    }
    Ok(())
}

fn is_same_input(a: GateInput, b: GateInput) -> bool
    ensures { IsTrue result → a ≡ b }
{
    a.gate == b.gate && a.input == b.input
}

fn is_fed_rightly(tables: &Tables, at: GateInput) -> bool
    ensures { IsTrue result → IsFedRightly tables.now at }
{
    match tables.feed(at) {
        Some(Feed::Wire(w)) => {
            (w as usize) < tables.wires.len() && is_same_input(tables.wire(w as usize).to, at)
        }
        Some(Feed::Driven(d)) => match tables.driven.as_slice().get(d as usize) {
            Some(input) => is_same_input(*input, at),
            None => false,
        },
        None => false,
    }
}

fn are_inputs_fed(tables: &Tables, gate: u32, inputs: u32) -> bool
    ensures { IsTrue result → ((i : ℕ) → i < inputs →
        IsFedRightly tables.now (record { gate = gate; input = i })) }
{
    for input in 0..inputs {
        if !is_fed_rightly(tables, GateInput { gate, input }) {
            return false;
        }
    }
    true
}

fn is_gate_fed(tables: &Tables, k: usize) -> bool
    ensures { IsTrue result → ((i : ℕ) →
        i < length (sourced_gate tables.now (table_gate tables.now k)).placed.gate.ins →
        IsFedRightly tables.now (record { gate = k; input = i })) }
{
    let Some(gate) = tables.gate(k) else {
        return false;
    };
    let Some(kind) = tables.kind(gate) else {
        return false;
    };
    let Ok(number) = u32::try_from(k) else {
        return false;
    };
    let Ok(inputs) = u32::try_from(kind.inputs()) else {
        return false;
    };
    are_inputs_fed(tables, number, inputs)
}

/// Tests that each input of each gate is fed by a wire that ends there, or by its drive.
pub fn are_gates_fed(tables: &Tables) -> Result<(), CellFault>
    ensures { IfOk result (λ _. (k : ℕ) → k < length tables.now.gates → (i : ℕ) →
        i < length (sourced_gate tables.now (table_gate tables.now k)).placed.gate.ins →
        IsFedRightly tables.now (record { gate = k; input = i })) }
{
    for k in 0..tables.gates.len() {
        if !is_gate_fed(tables, k) {
            return Err(tables.fault_at_gate(FaultWord::Fed, k));
        }
    }
    Ok(())
}
