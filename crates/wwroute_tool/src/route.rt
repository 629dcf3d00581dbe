// The pattern that carries a netlist.
ghost use Rattle.std.specs.Prelude.{IfOk, IsTrue};
ghost use Rattle.netlist_text.specs.Parts.{AreParts};
ghost use Rattle.plan_ports.specs.Tables.{HasPortNames};
ghost use Rattle.routed_plans.specs.Nets.{ShowsNetsBy};
ghost use Rattle.wwroute_tool.specs.Answers.{answer_text, report_line, report_of, HasNoPlanForm, IsWritableAnswer, TellsSize};

use crate::answer::Answer;
use netlist_plans::plan_netlist;
use netlist_text::Netlist;
use routed_plans::{Routed, RoutedPlanError, ShownNets, route_netlist};
use std::alloc::Global;

// Whether the text of a routed circuit is that of no plan: it begins with lines of gates and wires, or
// has a box that no plan has.
fn is_no_plan(routed: &Routed) -> bool
    ensures { IsTrue result → HasNoPlanForm routed.now }
{
    routed.lines.len() > 0 || routed.pattern.width % 32 > 1 || routed.pattern.height % 16 > 0
}

/// Draws a netlist as a routed circuit or, if none is found, as `compile` does.
pub fn drawn(alloc: Global, netlist: &Netlist, nets: ShownNets) -> Result<Answer, RoutedPlanError>
    requires parts { AreParts netlist.now.design netlist.now.flat netlist.now.order.nodes }
    requires names { HasPortNames netlist.now.flat }
    ensures shows { IfOk result (λ answer.
        ShowsNetsBy nets (answer_text answer) netlist.now.design) }
    ensures tells { IfOk result (λ answer. TellsSize (answer_text answer)
        (report_line (report_of answer))) }
    ensures writable { IfOk result IsWritableAnswer }
{
    if let Some(routed) = route_netlist(alloc, &netlist.flat, &netlist.order, nets)? {
        if is_no_plan(&routed) {
            return Ok(Answer::Routed(routed));
        }
        drop(routed);
    }
    let planned = plan_netlist(alloc, &netlist.flat, &netlist.order)?;
    Ok(Answer::ByLanes(planned))
}
