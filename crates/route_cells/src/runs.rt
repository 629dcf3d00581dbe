// Tests of all gates and wires.
ghost use Rattle.std.specs.Prelude.{◌<◌, ℕ, length, IfOk};
ghost use Rattle.route_tables.specs.Runs.{FitsItsPeriod, HasPortSources, IsDelayedByWire, ShowsStarts};

use crate::RouteError;
use crate::gates::test_gate;
use crate::wires::test_wire;
use route_tables::{CellFault, Tables};
use std::alloc::Global;
use ww_rule::State;

/// Tests that all gates can be used at the period, and that their ports have sources.
pub fn test_gates(t: &Tables, period: u64) -> Result<(), CellFault>
    requires some { 0 < period }
    ensures in_time { IfOk result (λ _. (k : ℕ) → k < length t.now.gates →
        FitsItsPeriod t.now period k) }
    ensures sources { IfOk result (λ _. (k : ℕ) → k < length t.now.gates →
        HasPortSources t.now k) }
{
    for k in 0..t.gates.len() {
        test_gate(t, period, k)?;
    }
    Ok(())
}

/// Tests that all wires keep time, and have the electrons of their start bits.
pub fn test_wires(
    alloc: Global,
    t: &Tables,
    states: &[State],
    period: u64,
) -> Result<(), RouteError>
    requires some { 0 < period }
    ensures { IfOk result (λ _. (w : ℕ) → w < length t.now.wires →
        IsDelayedByWire t.now period w × ShowsStarts t.now states.now period w) }
{
    for w in 0..t.wires.len() {
        test_wire(alloc, t, states, period, w)?;
    }
    Ok(())
}
