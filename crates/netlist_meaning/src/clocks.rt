// The classes of clock nets.
ghost use Rattle.std.specs.Prelude.{◌≡◌, ◌<◌, ◌==◌, cond, false, replicate, length, ℕ, All, IfOk};
ghost use Rattle.lists.specs.Items.{flag_at};
ghost use Rattle.std.specs.List.{list_any};
ghost use Rattle.netlist_meaning.specs.Flat.{IsInRange, IsNetId, class_of, port_classes, is_clock_class};
ghost use Rattle.netlist_meaning.specs.Marks.{MarksClocks};

use crate::class_of;
use netlist_core::{Flat, FlatPort, NetId};
use std::alloc::{AllocError, Global};

/// A flat netlist with a mark for each class that tells whether it is a clock's. Contracts see the
/// netlist.
#[derive(Drop)]
pub struct ClockClasses<'a> {
    flat: &'a Flat,
    marks: Vec<bool>,
}

impl<'a> std::marker::Model for ClockClasses<'a> {
    ghost use Rattle.netlist_core.specs.declared.flat.Flat.{Flat};
    ghost use Rattle.netlist_meaning.specs.Flat.{IsInRange};
    ghost use Rattle.netlist_meaning.specs.Marks.{MarksClocks};

    ghost Value = { Flat };

    ghost view = { λ clocks. clocks.flat.now };

    ghost invariant = { λ clocks. IsInRange clocks.flat.now
        × MarksClocks clocks.flat.now clocks.marks.items };
}

// Marks the classes of ports.
fn mark_ports(flat: &Flat, marks: &mut [bool], ports: &[FlatPort], mark: bool)
    requires in_range { IsInRange flat.now }
    requires marks { length marks.old ≡ length flat.now.nets }
    requires ports { All (λ port. IsNetId flat.now port.net) ports.now }
    ensures { (class : ℕ)
        → class < length flat.now.nets
        → flag_at marks.new class
        ≡ cond (list_any (λ marked. marked == class) (port_classes flat.now ports.now)) mark (
        flag_at marks.old class
        ) }
{
    for port in ports {
        marks[class_of(flat, port.net)] = mark;
    }
}

// Marks all classes: those of clocks that are no inputs, and that of the control.
fn mark_clocks(flat: &Flat, marks: &mut [bool])
    requires in_range { IsInRange flat.now }
    requires marks { marks.old ≡ replicate (length flat.now.nets) false }
    ensures { MarksClocks flat.now marks.new }
{
    mark_ports(flat, marks, flat.clocks.as_slice(), true);
    mark_ports(flat, marks, flat.ins.as_slice(), false);
    if let Some(control) = flat.control {
        marks[class_of(flat, control)] = true;
    }
}

impl<'a> ClockClasses<'a> {
    /// Marks the clock classes of a netlist.
    pub fn new(alloc: Global, flat: &'a Flat) -> Result<ClockClasses<'a>, AllocError>
        requires { IsInRange flat.now }
        ensures { IfOk result (λ clocks. clocks ≡ flat.now) }
    {
        let mut marks = vec![in alloc; false; flat.nets.len()]?;
        mark_clocks(flat, &mut marks);
        Ok(ClockClasses { flat, marks })
    }

    /// Returns the netlist.
    pub fn flat(&self) -> &'a Flat
        ensures flat { result.now ≡ self.now }
        ensures in_range { IsInRange self.now }
    {
        self.flat
    }

    /// Returns whether a class of nets is a clock's.
    pub fn is_clock_class(&self, class: usize) -> bool
        requires { class < length self.now.nets }
        ensures { result ≡ is_clock_class self.now class }
    {
        self.marks[class]
    }

    /// Returns whether a net is of a clock's class.
    pub fn is_clock(&self, net: NetId) -> bool
        requires { IsNetId self.now net }
        ensures { result ≡ is_clock_class self.now (class_of self.now net) }
    {
        self.marks[class_of(self.flat, net)]
    }
}
