// A flat netlist, run cycle by cycle.
ghost use Rattle.std.specs.Prelude.{◌≡◌, length, IfOk};
ghost use Rattle.netlist_meaning.specs.FlatValuation.{start_bits};
ghost use Rattle.netlist_meaning.specs.Flat.{IsSound};
ghost use Rattle.netlist_meaning.specs.FlatOrder.{IsOrder};
ghost use Rattle.netlist_meaning.specs.FlatValuation.{IsCycle};

use crate::MachineError;
use crate::settle::{first_state, run_cycle};
use netlist_core::{Flat, Order};
use std::alloc::Global;
use std::marker::Model;

/// A machine, which runs a flat netlist cycle by cycle and holds the state of its latches.
#[derive(Drop)]
pub struct Machine<'a> {
    flat: &'a Flat,
    order: Order,
    bits: Vec<bool>,
    state: Vec<bool>,
}

impl<'a> Model for Machine<'a> {
    ghost use Rattle.std.specs.Prelude.{length, ◌≡◌};
    ghost use Rattle.netlist_meaning.specs.Flat.{IsSound};
    ghost use Rattle.netlist_meaning.specs.FlatOrder.{IsOrder};
    ghost use Rattle.netlist_eval.specs.Eval.{Held};

    ghost Value = { Held };

    ghost view = { λ m. record { flat = m.flat.now; state = m.state.items } };

    ghost invariant = { λ m. IsSound m.flat.now × IsOrder m.flat.now m.order.nodes
        × (length m.bits.items ≡ length m.flat.now.nets)
        × (length m.state.items ≡ length m.flat.now.latches) };
}

impl<'a> Machine<'a> {
    /// Makes the machine in its first state, in which a latch with init 1 is 1 and each other is 0.
    pub fn new(alloc: Global, flat: &'a Flat, order: Order) -> Result<Machine<'a>, MachineError>
        requires sound { IsSound flat.now }
        requires ordered { IsOrder flat.now order.nodes }
        ensures flat { IfOk result (λ machine. machine.flat ≡ flat.now) }
        ensures state { IfOk result (λ machine. machine.state ≡ start_bits flat.now) }
    {
        let bits = vec![in alloc; false; flat.nets.len()]?;
        let state = first_state(alloc, flat)?;
        Ok(Machine {
            flat,
            order,
            bits,
            state,
        })
    }

    /// Runs one cycle: writes the bits of the main outputs for these bits of the inputs, both in
    /// the order of the flat netlist, and goes on to the next state. It takes no memory.
    pub fn cycle(&mut self, inputs: &[bool], outputs: &mut [bool])
        requires inputs { length inputs.now ≡ length self.old.flat.ins }
        requires outputs { length outputs.old ≡ length self.old.flat.outs }
        ensures flat { self.new.flat ≡ self.old.flat }
        ensures cycle { IsCycle self.old.flat inputs.now self.old.state outputs.new self.new.state }
    {
        run_cycle(
            self.flat,
            self.order.nodes.as_slice(),
            &mut self.bits,
            &mut self.state,
            inputs,
            outputs,
        );
    }
}
