// The fault of clocks.
ghost use Rattle.std.specs.Prelude.{ℕ, OnOk};
ghost use Rattle.std.specs.Result.{IsErrOf};
ghost use Rattle.netlist_core.specs.Names.{Name};
ghost use Rattle.netlist_meaning.specs.Flat.{IsInRange};
ghost use Rattle.netlist_rules.specs.declared.fault.Fault as rules;
ghost use Rattle.netlist_rules.specs.FlatClocks.{HasOneFlatClock, IsFlatClockRead, IsFlatClockFault};

use crate::control::{control_word, other_clock};
use crate::error::ClockError;
use crate::uses::earliest_use;
use netlist_core::Flat;
use netlist_meaning::{ClockClasses, name_of_net};
use netlist_rules::FaultKind;
use std::alloc::Global;

// Checks that all latches have one clock.
fn check_latches(alloc: Global, flat: &Flat) -> Result<(), ClockError>
    requires { IsInRange flat.now }
    ensures fault { (fault : rules.Fault)
        → IsErrOf result (ClockError.Fault fault)
        → IsFlatClockFault flat.now fault }
    ensures one { OnOk result (HasOneFlatClock flat.now) }
{
    match other_clock(flat) {
        None => Ok(()),
        Some(latch) => {
            let word = control_word(alloc, flat, latch.control)?;
            Err(ClockError::at_word(FaultKind::TwoClocks, latch.line, word))
        }
    }
}

// Checks that nothing but the latches' controls uses a clock net.
fn check_uses(alloc: Global, flat: &Flat) -> Result<(), ClockError>
    requires in_range { IsInRange flat.now }
    requires one_clock { HasOneFlatClock flat.now }
    ensures fault { (fault : rules.Fault)
        → IsErrOf result (ClockError.Fault fault)
        → IsFlatClockFault flat.now fault }
    ensures unused { OnOk result ((line : ℕ) (word : Name) → ¬ IsFlatClockRead flat.now line word) }
{
    let clocks = ClockClasses::new(alloc, flat)?;
    match earliest_use(&clocks) {
        None => Ok(()),
        Some(first) => {
            let word = name_of_net(alloc, flat, first.net)?;
            Err(ClockError::at_word(FaultKind::ClockRead, first.line, word))
        }
    }
}

/// Checks the clocks of a flat netlist. `Fault` has the first latch that differs from the first one
/// in type or control; if there is none, it has the earliest use of a clock net by a node, as a
/// latch's input or output, or as a main output.
pub fn check_clock(alloc: Global, flat: &Flat) -> Result<(), ClockError>
    requires in_range { IsInRange flat.now }
    ensures fault { (fault : rules.Fault)
        → IsErrOf result (ClockError.Fault fault)
        → IsFlatClockFault flat.now fault }
    ensures none { OnOk result ((fault : rules.Fault) → ¬ IsFlatClockFault flat.now fault) }
{
    check_latches(alloc, flat)?;
    check_uses(alloc, flat)
}
