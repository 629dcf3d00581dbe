// The NET lines of a routed circuit.
ghost use Rattle.std.specs.Prelude.{◌≡◌, ◌<◌, ◌∷◌, ◌++◌, [], filter, get_or, length, option_map, None, IfOk, OnOk};
ghost use Rattle.std.specs.Option.{option_to_list};
ghost use Rattle.netlist_meaning.specs.Flat.{IsInRange, listed_nets, nets_but_clocks};
ghost use Rattle.place_paths.specs.Paths as paths;
ghost use Rattle.plan_ports.specs.Tables.{named_paths};
ghost use Rattle.routed_plans.specs.Drawn.{items_drawn, is_plain, nets_now};

use crate::nets::SeenPort;
use lists::{Bytes, OutOfMemory};
use netlist_core::{Flat, Net};
use netlist_meaning::ClockClasses;
use pattern_reading::NetLine;
use place_paths::path_of;
use std::alloc::Global;

// The line of a net that is seen at a port.
fn net_line(alloc: Global, port: SeenPort, net: &Net) -> Result<NetLine, OutOfMemory>
    ensures { IfOk result (λ line. (line.name, line.path)
        ≡ paths.name_and_path net.now.place net.now.name) }
{
    let name = Bytes::of(net.name.as_slice().to_vec(alloc)?);
    let path = path_of(alloc, net.place.as_slice())?;
    Ok(NetLine {
        x: u64::from(port.x),
        y: u64::from(port.y),
        offset: port.first,
        name,
        path,
    })
}

// Adds the line of listed net `k`, if its port is drawn.
fn add_line(
    alloc: Global,
    lines: &mut Vec<NetLine>,
    ports: &[Option<SeenPort>],
    k: usize,
    net: &Net,
) -> Result<(), OutOfMemory>
    ensures { OnOk result (paths.names_and_paths lines.new.items
        ≡ paths.names_and_paths lines.old.items ++ option_to_list (option_map
        (λ _. paths.name_and_path net.now.place net.now.name) (get_or ports.now k None))) }
{
    if let Some(Some(port)) = ports.get(k) {
        lines.push(net_line(alloc, *port, net)?)?;
    }
    Ok(())
}

// Adds a net, if it is no clock net.
fn add_plain<'a>(
    nets: &mut Vec<&'a Net>,
    clocks: &ClockClasses,
    net: &'a Net,
) -> Result<(), OutOfMemory>
    requires { net.now.class < length clocks.now.nets }
    ensures { OnOk result (nets_now nets.new.items ≡ nets_now nets.old.items
        ++ filter (is_plain clocks.now) (net.now ∷ [])) }
{
    if !clocks.is_clock_class(net.class as usize) {
        nets.push(net)?;
    }
    Ok(())
}

// All nets but the clock nets.
fn plain_nets(alloc: Global, flat: &Flat) -> Result<Vec<&Net>, OutOfMemory>
    requires { IsInRange flat.now }
    ensures { IfOk result (λ nets. nets_now nets.items ≡ nets_but_clocks flat.now) }
{
    let clocks = ClockClasses::new(alloc, flat)?;
    let mut nets = Vec::new(alloc);
    for net in flat.nets.as_slice() {
        add_plain(&mut nets, &clocks, net)?;
    }
    Ok(nets)
}

// The lines of nets whose ports are drawn.
fn lines_of(
    alloc: Global,
    ports: &[Option<SeenPort>],
    nets: &[&Net],
) -> Result<Vec<NetLine>, OutOfMemory>
    ensures { IfOk result (λ lines. paths.names_and_paths lines.items
        ≡ items_drawn ports.now (named_paths (nets_now nets.now))) }
{
    let mut lines = Vec::new(alloc);
    for k in 0..nets.len() {
        add_line(alloc, &mut lines, ports, k, nets[k])?;
    }
    Ok(lines)
}

/// Makes the lines of the netlist's listed nets whose ports are drawn, in order.
pub fn lines_of_nets(
    alloc: Global,
    flat: &Flat,
    ports: &[Option<SeenPort>],
) -> Result<Vec<NetLine>, OutOfMemory>
    requires { IsInRange flat.now }
    ensures { IfOk result (λ lines. paths.names_and_paths lines.items
        ≡ named_paths (items_drawn ports.now (listed_nets flat.now))) }
{
    if !flat.listed {
        return Ok(Vec::new(alloc));
    }
    let nets = plain_nets(alloc, flat)?;
    lines_of(alloc, ports, &nets)
}
