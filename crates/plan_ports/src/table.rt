// The table of a plan, port by port.
ghost use Rattle.std.specs.Prelude.{◌≡◌, All, IfOk};
ghost use Rattle.lane_core.specs.Plans.{IsAdmissible};
ghost use Rattle.netlist_meaning.specs.Flat.{IsInRange, IsNetId, name_of_net, names_of_ports};
ghost use Rattle.pattern_reading.specs.Ports.{cells_of, names_of};
ghost use Rattle.plan_ports.specs.Tables.{HasPortsOf, IsTableOf, driven_inputs, drawn_input_cells, drawn_output_cells};

use crate::PortsError;
use crate::nets::net_lines;
use lane_core::{Plan, in_cell, latency, out_cell, period};
use lists::{Bytes, List};
use netlist_core::{Flat, FlatPort};
use pattern_reading::{PortLine, Ports};
use std::alloc::Global;

// The line of a port whose cell is at `x`, `y`.
fn port_line(
    alloc: Global,
    flat: &Flat,
    port: FlatPort,
    x: u64,
    y: u64,
) -> Result<PortLine, PortsError>
    requires { IsNetId flat.now port.net }
    ensures x { IfOk result (λ line. line.x ≡ x) }
    ensures y { IfOk result (λ line. line.y ≡ y) }
    ensures name { IfOk result (λ line. line.name ≡ name_of_net flat.now port.net) }
{
    let net = flat.nets.get(port.net.0 as usize);
    let name = Bytes::of(net.name.as_slice().to_vec(alloc)?);
    Ok(PortLine { x, y, name })
}

fn input_lines(alloc: Global, flat: &Flat, plan: &Plan) -> Result<Vec<PortLine>, PortsError>
    requires there { All (λ port. IsNetId flat.now port.net) flat.now.ins }
    requires admissible { IsAdmissible plan.now }
    requires ports { HasPortsOf flat.now plan.now }
    ensures cells { IfOk result (λ lines. cells_of lines.items ≡ drawn_input_cells plan.now) }
    ensures names { IfOk result (λ lines. names_of lines.items ≡
        names_of_ports flat.now flat.now.ins) }
{
    let mut lines = Vec::with_capacity(alloc, flat.ins.len())?;
    for i in 0..flat.ins.len() {
        let (x, y, _) = in_cell(plan, i);
        lines.push(port_line(alloc, flat, *flat.ins.get(i), x, y)?)?;
    }
    Ok(lines)
}

// The lines of the inputs that are driven: none if their bits are on a tape.
fn driven_lines(alloc: Global, flat: &Flat, plan: &Plan) -> Result<Vec<PortLine>, PortsError>
    requires there { All (λ port. IsNetId flat.now port.net) flat.now.ins }
    requires admissible { IsAdmissible plan.now }
    requires ports { HasPortsOf flat.now plan.now }
    ensures cells { IfOk result (λ lines.
        cells_of lines.items ≡ driven_inputs plan.now (drawn_input_cells plan.now)
        ) }
    ensures names { IfOk result (λ lines.
        names_of lines.items ≡ driven_inputs plan.now (names_of_ports flat.now flat.now.ins)
        ) }
{
    if plan.tape.len() > 0 {
        return Ok(Vec::new(alloc));
    }
    input_lines(alloc, flat, plan)
}

fn output_lines(alloc: Global, flat: &Flat, plan: &Plan) -> Result<Vec<PortLine>, PortsError>
    requires there { All (λ port. IsNetId flat.now port.net) flat.now.outs }
    requires admissible { IsAdmissible plan.now }
    requires ports { HasPortsOf flat.now plan.now }
    ensures cells { IfOk result (λ lines. cells_of lines.items ≡ drawn_output_cells plan.now) }
    ensures names { IfOk result (λ lines. names_of lines.items ≡
        names_of_ports flat.now flat.now.outs) }
{
    let mut lines = Vec::with_capacity(alloc, flat.outs.len())?;
    for i in 0..flat.outs.len() {
        let (x, y, _) = out_cell(plan, i);
        lines.push(port_line(alloc, flat, *flat.outs.get(i), x, y)?)?;
    }
    Ok(lines)
}

/// Returns the port table of a plan that has an input and an output for each of the netlist's, and
/// a net for each that tables list. `c` is the number of contexts that run in the pattern. If the
/// bits of the inputs are on the plan's tape, no input has a line.
pub fn of_plan(alloc: Global, flat: &Flat, plan: &Plan, c: u64) -> Result<Ports, PortsError>
    requires in_range { IsInRange flat.now }
    requires admissible { IsAdmissible plan.now }
    requires ports { HasPortsOf flat.now plan.now }
    ensures { IfOk result (IsTableOf flat.now plan.now c) }
{
    let ins = driven_lines(alloc, flat, plan)?;
    let outs = output_lines(alloc, flat, plan)?;
    let nets = net_lines(alloc, flat, plan)?;
    Ok(Ports {
        p: period(plan),
        l: latency(plan),
        c,
        ins: List::of(ins),
        outs: List::of(outs),
        nets: List::of(nets),
    })
}
