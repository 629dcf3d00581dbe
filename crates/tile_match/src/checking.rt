// The audit: the plan that is read from a pattern is drawn again, and the drawing compared with the
// pattern.
ghost use Rattle.std.specs.Prelude.{◌≡◌, [], false, IfOk, None, OnOk, Some};
ghost use Rattle.std.specs.Result.{IsErrOf};
ghost use Rattle.ww_rule.specs.Patterns.{grid_of};
ghost use Rattle.tile_match.specs.declared.error.AuditError.TheVariants.{NotCircuit};
ghost use Rattle.tile_match.specs.declared.error.CircuitFault.{CircuitFault};
ghost use Rattle.tile_match.specs.Circuit.{IsPlanDrawing};
ghost use Rattle.tile_match.specs.Faults.{HasCircuitFault};
ghost use Rattle.tile_match.specs.Names.{has_bad_name};
ghost use Rattle.tile_match.specs.Read.{IsPlanRead};

use crate::compare::is_drawn;
use crate::error::{AuditError, CircuitFault};
use crate::names::has_bad_name;
use crate::plan::plan_shown;
use lane_core::Plan;
use pattern_reading::Ports;
use std::alloc::{AllocError, Global};
use ww_rule::Pattern;

// The fault of a pattern with a port table from which this plan was read, if it has one.
fn fault_of(
    alloc: Global,
    pattern: &Pattern,
    ports: &Ports,
    plan: &Plan,
) -> Result<Option<CircuitFault>, AllocError>
    requires read { IsPlanRead (grid_of pattern.now) ports.now plan.now }
    requires nets { plan.now.nets ≡ [] }
    ensures none { IfOk result (λ found. found ≡ None →
        IsPlanDrawing (grid_of pattern.now) ports.now plan.now × (has_bad_name ports.now ≡ false)) }
    ensures fault { IfOk result (λ found. (fault : CircuitFault) → found ≡ Some fault →
        HasCircuitFault (grid_of pattern.now) ports.now fault) }
{
    if has_bad_name(alloc, ports)? {
        return Ok(Some(CircuitFault::Names));
    }
    if !is_drawn(alloc, pattern, plan)? {
        return Ok(Some(CircuitFault::Cells));
    }
    Ok(None)
}

/// Returns the plan of which a pattern with a port table is the drawing, without the places of
/// nets, or the first reason why it is refused.
pub fn audit(alloc: Global, pattern: &Pattern, ports: &Ports) -> Result<Plan, AuditError>
    ensures drawn { IfOk result (λ plan. IsPlanDrawing (grid_of pattern.now) ports.now plan) }
    ensures named { OnOk result (has_bad_name ports.now ≡ false) }
    ensures nets { IfOk result (λ plan. plan.nets ≡ []) }
    ensures fault { (fault : CircuitFault)
        → IsErrOf result (NotCircuit fault)
        → HasCircuitFault (grid_of pattern.now) ports.now fault }
{
    let Some(plan) = plan_shown(alloc, pattern, ports)? else {
        return Err(AuditError::NotCircuit(CircuitFault::Ports));
    };
    if let Some(fault) = fault_of(alloc, pattern, ports, &plan)? {
        return Err(AuditError::NotCircuit(fault));
    }
    Ok(plan)
}
