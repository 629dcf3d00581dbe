// The bits of a cycle, by class: those of inputs and latches are put, those of nodes are computed
// along the order.
ghost use Rattle.std.specs.Prelude.{◌≡◌, ◌<◌, length, map, All, IfOk, ◌==◌};
ghost use Rattle.netlist_meaning.specs.FlatValuation.{start_bits};
ghost use Rattle.netlist_meaning.specs.Flat.{IsInRange, class_of};
ghost use Rattle.netlist_eval.specs.Eval.{class_bit, with_inputs, with_state, settled, evaluated};

use crate::cover::{net_bit, node_bit};
use netlist_core::Flat;
use netlist_meaning::class_of;
use std::alloc::{AllocError, Global};

/// Puts the bits of the inputs at the classes of their nets.
pub fn put_inputs(flat: &Flat, inputs: &[bool], bits: &mut [bool])
    requires in_range { IsInRange flat.now }
    requires inputs { length inputs.now ≡ length flat.now.ins }
    requires bits { length bits.old ≡ length flat.now.nets }
    ensures { bits.new ≡ with_inputs flat.now inputs.now bits.old }
{
    for k in 0..flat.ins.len() {
        bits[class_of(flat, flat.ins.get(k).net)] = inputs[k];
    }
}

/// Puts the bits of the state at the classes of the latches' outputs.
pub fn put_state(flat: &Flat, state: &[bool], bits: &mut [bool])
    requires in_range { IsInRange flat.now }
    requires state { length state.now ≡ length flat.now.latches }
    requires bits { length bits.old ≡ length flat.now.nets }
    ensures { bits.new ≡ with_state flat.now state.now bits.old }
{
    for k in 0..flat.latches.len() {
        bits[class_of(flat, flat.latches.get(k).output)] = state[k];
    }
}

/// Computes the bits of the nodes along the order, each at the class of its output.
pub fn settle(flat: &Flat, order: &[u32], bits: &mut [bool])
    requires in_range { IsInRange flat.now }
    requires order { All (λ n. n < length flat.now.nodes) order.now }
    requires bits { length bits.old ≡ length flat.now.nets }
    ensures { bits.new ≡ settled flat.now order.now bits.old }
{
    for n in order {
        let n = *n as usize;
        let bit = node_bit(flat, bits, n);
        bits[class_of(flat, flat.nodes.get(n).out)] = bit;
    }
}

/// Reads the bits of the main outputs.
pub fn read_outputs(flat: &Flat, bits: &[bool], outputs: &mut [bool])
    requires in_range { IsInRange flat.now }
    requires bits { length bits.now ≡ length flat.now.nets }
    requires outputs { length outputs.old ≡ length flat.now.outs }
    ensures { outputs.new ≡ map (λ port. class_bit bits.now
        (class_of flat.now port.net)) flat.now.outs }
{
    for (k, port) in flat.outs.as_slice().iter().enumerate() {
        outputs[k] = net_bit(flat, bits, port.net);
    }
}

/// Reads the bits of the latches' inputs.
pub fn read_state(flat: &Flat, bits: &[bool], state: &mut [bool])
    requires in_range { IsInRange flat.now }
    requires bits { length bits.now ≡ length flat.now.nets }
    requires state { length state.old ≡ length flat.now.latches }
    ensures { state.new ≡ map (λ latch. class_bit bits.now
        (class_of flat.now latch.input)) flat.now.latches }
{
    for (k, latch) in flat.latches.as_slice().iter().enumerate() {
        state[k] = net_bit(flat, bits, latch.input);
    }
}

/// Runs one cycle: computes the outputs from the inputs and the state, and puts the next state in
/// the place of the state.
pub fn run_cycle(
    flat: &Flat,
    order: &[u32],
    bits: &mut [bool],
    state: &mut [bool],
    inputs: &[bool],
    outputs: &mut [bool],
)
    requires in_range { IsInRange flat.now }
    requires order { All (λ n. n < length flat.now.nodes) order.now }
    requires bits { length bits.old ≡ length flat.now.nets }
    requires state { length state.old ≡ length flat.now.latches }
    requires inputs { length inputs.now ≡ length flat.now.ins }
    requires outputs { length outputs.old ≡ length flat.now.outs }
    ensures outputs { outputs.new
        ≡ map
        (λ port. class_bit (evaluated flat.now order.now inputs.now state.old bits.old)
        (class_of flat.now port.net))
        flat.now.outs }
    ensures state { state.new
        ≡ map
        (λ latch. class_bit (evaluated flat.now order.now inputs.now state.old bits.old)
        (class_of flat.now latch.input))
        flat.now.latches }
{
    put_inputs(flat, inputs, bits);
    put_state(flat, state, bits);
    settle(flat, order, bits);
    read_outputs(flat, bits, outputs);
    read_state(flat, bits, state);
}

/// Returns the first state of the latches.
pub fn first_state(alloc: Global, flat: &Flat) -> Result<Vec<bool>, AllocError>
    ensures { IfOk result (λ state. state.items ≡ start_bits flat.now) }
{
    flat.latches
        .as_slice()
        .iter()
        .map(|latch| latch.init == 1)
        .collect(alloc)
}
