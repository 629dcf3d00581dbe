// Gates that can be used at the period, and whose ports have sources.
ghost use Rattle.std.specs.Prelude.{◌≡◌, ◌<◌, ℕ, length, IsTrue, IfOk};
ghost use Rattle.routed_circuits.specs.Runs.{src_at};
ghost use Rattle.gate_library.specs.Lawful.{answer_at};
ghost use Rattle.route_tables.specs.Runs.{FitsItsPeriod, HasPortSources, IsAnsweredBy};

use crate::answers::are_answered;
use crate::periods::fits_period;
use cell_core::CellList;
use gate_library::GateDrawing;
use route_tables::{CellFault, FaultWord, TableGate, Tables};

// Whether each port of a gate has a source, those of its outputs being the answers.
fn is_answered(list: &CellList, gate: &TableGate, drawing: &GateDrawing) -> bool
    ensures ins { IsTrue result → length gate.now.ins ≡ length drawing.now.ins }
    ensures outs { IsTrue result → length gate.now.outs ≡ length drawing.now.outs }
    ensures answers { IsTrue result → ((o : ℕ) → o < length gate.now.outs →
        IsAnsweredBy list.now gate.now.ins (answer_at drawing.now o) (src_at gate.now.outs o)) }
{
    if gate.ins.len() != drawing.ins.len() || gate.outs.len() != drawing.outs.len() {
        return false;
    }
    are_answered(list, drawing, gate.ins.as_slice(), gate.outs.as_slice())
}

/// Tests that a gate can be used at the period, and that each of its ports has a source, those of
/// outputs being the answers.
pub fn test_gate(t: &Tables, period: u64, k: usize) -> Result<(), CellFault>
    requires some { 0 < period }
    ensures in_time { IfOk result (λ _. FitsItsPeriod t.now period k) }
    ensures sources { IfOk result (λ _. HasPortSources t.now k) }
{
    let Some(gate) = t.gate(k) else {
        return Err(t.fault_at_gate(FaultWord::Gate, k));
    };
    let Some(kind) = t.kind(gate) else {
        return Err(t.fault_at_gate(FaultWord::Kind, k));
    };
    let drawing = kind.drawing();
    if !fits_period(drawing, period, gate.later) {
        return Err(t.fault_at_gate(FaultWord::Kind, k));
    }
    if !is_answered(&t.list, gate, drawing) {
        return Err(t.fault_at_gate(FaultWord::Order, k));
    }
    Ok(())
}
