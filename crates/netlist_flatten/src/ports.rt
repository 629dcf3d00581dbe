// The ports of the main model.
ghost use Rattle.std.specs.Prelude.{ℕ, ◌≡◌, ◌<◌, ◌↔◌, [], All, length, map, true, ⊤, IfOk, MatchOption};
ghost use Rattle.lists.specs.Items.{flag_at, number_at};
ghost use Rattle.netlist_meaning.specs.Places.{main_ports};
ghost use Rattle.netlist_meaning.specs.Nets.{net_at, IsNet};
ghost use Rattle.netlist_meaning.specs.InOrder.{nets_in_order};
ghost use Rattle.netlist_meaning.specs.FlatOf.{class_of_net, flat_latch, flat_port, at_places};
ghost use Rattle.netlist_rules.specs.ModelFaults.{AreFaultless};
ghost use Rattle.netlist_flatten.specs.Inputs.{AreInputs, HasControlClass};

use crate::numbers::Numbers;
use lists::List;
use netlist_core::{FlatLatch, FlatPort, Port};
use std::alloc::{AllocError, Global};

// A port of the main model.
fn port_of(numbers: &Numbers<'_>, port: &Port) -> FlatPort
    requires faultless { AreFaultless numbers.now.models }
    requires net { IsNet numbers.now (net_at [] port.now.name) }
    ensures { result ≡ flat_port numbers.now port.now }
{
    FlatPort {
        line: port.line,
        net: numbers.id(0, port.name.as_slice()),
    }
}

// The ports of a list of the main model.
fn ports_of(
    alloc: Global,
    numbers: &Numbers<'_>,
    ports: &[Port],
) -> Result<Vec<FlatPort>, AllocError>
    requires faultless { AreFaultless numbers.now.models }
    requires nets { All (λ port. IsNet numbers.now (net_at [] port.name)) ports.now }
    ensures { IfOk result (λ flat. flat.items ≡ map (flat_port numbers.now) ports.now) }
{
    let mut flat = Vec::with_capacity(alloc, ports.len())?;
    for port in ports {
        flat.push(port_of(numbers, port))?;
    }
    Ok(flat)
}

// Which classes the controls of the latches have.
fn control_classes(
    alloc: Global,
    classes: &[u32],
    latches: &[FlatLatch],
) -> Result<Vec<bool>, AllocError>
    requires classes { All (λ class. class < length classes.now) classes.now }
    requires latches { All (λ latch. MatchOption latch.control ⊤
        (λ id. id.0 < length classes.now)) latches.now }
    ensures many { IfOk result (λ marks. length marks.items ≡ length classes.now) }
    ensures marked { IfOk result (λ marks. (class : ℕ) → (flag_at marks.items class ≡ true)
        ↔ HasControlClass classes.now latches.now class) }
{
    let mut marks = vec![in alloc; false; classes.len()]?;
    for latch in latches {
        if let Some(id) = latch.control {
            marks[classes[id.0 as usize] as usize] = true;
        }
    }
    Ok(marks)
}

// Whether the net of a port is of a control's class.
fn is_control(classes: &[u32], marks: &[bool], port: FlatPort) -> bool
    requires port { port.net.0 < length classes.now }
    requires marks { length marks.now ≡ length classes.now }
    requires classes { All (λ class. class < length classes.now) classes.now }
    ensures { result ≡ flag_at marks.now (number_at classes.now port.net.0) }
{
    marks[classes[port.net.0 as usize] as usize]
}

// The inputs: the ports of the main model's inputs that are not joined with a latch's control.
fn inputs_of(
    alloc: Global,
    numbers: &Numbers<'_>,
    ports: &[Port],
    classes: &[u32],
    latches: &[FlatLatch],
) -> Result<Vec<FlatPort>, AllocError>
    requires faultless { AreFaultless numbers.now.models }
    requires nets { All (λ port. IsNet numbers.now (net_at [] port.name)) ports.now }
    requires classes { classes.now ≡ map (class_of_net numbers.now) (nets_in_order numbers.now) }
    requires latches { latches.now ≡ at_places numbers.now (λ model. model.latches)
        (flat_latch numbers.now) }
    ensures { IfOk result (λ inputs. AreInputs numbers.now ports.now inputs.items) }
{
    let marks = control_classes(alloc, classes, latches)?;
    let mut inputs = Vec::new(alloc);
    for port in ports {
        let flat = port_of(numbers, port);
        if !is_control(classes, &marks, flat) {
            inputs.push(flat)?;
        }
    }
    Ok(inputs)
}

/// The ports of a flat netlist: its inputs, its outputs and its clocks.
#[derive(Drop)]
pub struct FlatPorts {
    pub ins: List<FlatPort>,
    pub outs: List<FlatPort>,
    pub clocks: List<FlatPort>,
}

/// Makes the ports of the flat netlist from those of the main model. Inputs that are joined with a
/// latch's control are left out.
pub fn flat_ports(
    alloc: Global,
    numbers: &Numbers<'_>,
    classes: &[u32],
    latches: &[FlatLatch],
) -> Result<FlatPorts, AllocError>
    requires faultless { AreFaultless numbers.now.models }
    requires classes { classes.now ≡ map (class_of_net numbers.now) (nets_in_order numbers.now) }
    requires latches { latches.now ≡ at_places numbers.now (λ model. model.latches)
        (flat_latch numbers.now) }
    ensures ins { IfOk result (λ ports.
        AreInputs numbers.now (main_ports (λ model. model.ins) numbers.now) ports.ins
        ) }
    ensures outs { IfOk result (λ ports.
        ports.outs ≡ map (flat_port numbers.now) (main_ports (λ model. model.outs) numbers.now)
        ) }
    ensures clocks { IfOk result (λ ports.
        ports.clocks
        ≡ map (flat_port numbers.now) (main_ports (λ model. model.clocks) numbers.now)
        ) }
{
    let main = numbers.model(0);
    let ins = inputs_of(alloc, numbers, main.ins.as_slice(), classes, latches)?;
    let outs = ports_of(alloc, numbers, main.outs.as_slice())?;
    let clocks = ports_of(alloc, numbers, main.clocks.as_slice())?;
    Ok(FlatPorts {
        ins: List::of(ins),
        outs: List::of(outs),
        clocks: List::of(clocks),
    })
}
