// The lines of nets.
ghost use Rattle.std.specs.Prelude.{◌≡◌, ◌<◌, length, IfOk};
ghost use Rattle.lane_core.specs.Plans.{IsAdmissible, net_cell_of};
ghost use Rattle.lane_core.specs.Tape.{tape_shift, moved_east};
ghost use Rattle.netlist_core.specs.declared.flat.Net as flat_net;
ghost use Rattle.netlist_meaning.specs.Flat.{IsInRange, listed_nets, nets_but_clocks};
ghost use Rattle.place_paths.specs.Paths as paths;
ghost use Rattle.plan_ports.specs.Tables.{HasPortsOf, drawn_net_cells, named_paths, net_cells_of};

use crate::PortsError;
use lane_core::{Plan, net_cell};
use lists::Bytes;
use netlist_core::{Flat, Net};
use netlist_meaning::ClockClasses;
use pattern_reading::NetLine;
use place_paths::path_of;
use std::alloc::Global;

// The line of net `i` of the plan, with the name and the path of `net`.
fn net_line(alloc: Global, plan: &Plan, i: usize, net: &Net) -> Result<NetLine, PortsError>
    requires admissible { IsAdmissible plan.now }
    requires known { i < length plan.now.nets }
    ensures cell { IfOk result (λ line.
        (line.x, line.y, line.offset)
        ≡ moved_east (tape_shift plan.now) (net_cell_of plan.now i)
        ) }
    ensures name { IfOk result (λ line. line.name ≡ net.now.name) }
    ensures path { IfOk result (λ line. line.path ≡ paths.path_of net.now.place) }
{
    let (x, y, offset) = net_cell(plan, i);
    let name = Bytes::of(net.name.as_slice().to_vec(alloc)?);
    let path = path_of(alloc, net.place.as_slice())?;
    Ok(NetLine {
        x,
        y,
        offset,
        name,
        path,
    })
}

// The lines of all nets but the clock nets, in order.
fn plain_lines(alloc: Global, flat: &Flat, plan: &Plan) -> Result<Vec<NetLine>, PortsError>
    requires in_range { IsInRange flat.now }
    requires admissible { IsAdmissible plan.now }
    requires many { length plan.now.nets ≡ length (nets_but_clocks flat.now) }
    ensures cells { IfOk result (λ lines. net_cells_of lines.items ≡ drawn_net_cells plan.now) }
    ensures names { IfOk result (λ lines.
        paths.names_and_paths lines.items ≡ named_paths (nets_but_clocks flat.now)
        ) }
{
    let clocks = ClockClasses::new(alloc, flat)?;
    let mut lines = Vec::with_capacity(alloc, plan.nets.len())?;
    for net in flat.nets.as_slice() {
        if !clocks.is_clock_class(net.class as usize) {
            let line = net_line(alloc, plan, lines.len(), net)?;
            lines.push(line)?;
        }
    }
    Ok(lines)
}

/// Returns the lines of the nets that tables list, in order.
pub fn net_lines(alloc: Global, flat: &Flat, plan: &Plan) -> Result<Vec<NetLine>, PortsError>
    requires in_range { IsInRange flat.now }
    requires admissible { IsAdmissible plan.now }
    requires ports { HasPortsOf flat.now plan.now }
    ensures cells { IfOk result (λ lines. net_cells_of lines.items ≡ drawn_net_cells plan.now) }
    ensures names { IfOk result (λ lines.
        paths.names_and_paths lines.items ≡ named_paths (listed_nets flat.now)
        ) }
{
    if !flat.listed {
        return Ok(Vec::new(alloc));
    }
    plain_lines(alloc, flat, plan)
}
