// The bits that all nets show in all contexts.
ghost use Rattle.std.specs.Prelude.{◌≡◌, ◌<◌, ◌+◌, ◌*◌, ◌^◌, ℕ, pos, Some, IfErr, IfOk, IfSome, OnOk, length, slice_get};
ghost use Rattle.lists.specs.Items.{flag_at};
ghost use Rattle.ww_rule.specs.Wireworld.{is_head};
ghost use Rattle.drive.specs.Driving.{AreFor, HasRunCause};
ghost use Rattle.drive.specs.Runs.{HasGoneOn, IsBandRun, first_miss_of, planes_of};
ghost use Rattle.vcd_write.specs.NetWaves.{NetInContext, greatest_offset, last_of_all_nets, nets_in_contexts};
ghost use Rattle.vcd_write.specs.NetBits.{FitsNets};

use crate::due_bits::Raster;
use crate::first_bits::sorted_first_bits;
use crate::packed_bits::PackedBits;
use crate::reading::read_bits;
use drive::{Run, SimulateError, last_from};
use pattern_reading::{NetLine, Ports};
use std::alloc::Global;
use streams::Streams;

// The greatest of the generations at which nets show their first bits.
fn greatest_offset(nets: &[NetLine]) -> u64
    ensures { result ≡ greatest_offset nets.now }
{
    let mut greatest = 0;
    for net in nets {
        greatest = net.offset.max(greatest);
    }
    greatest
}

/// Returns the generation of the last bit that a net shows in the cycles of streams, or 0 if there
/// are no nets.
pub fn last_of_all_nets(ports: &Ports, streams: &Streams) -> u128
    requires cycles { 0 < streams.now.cycles }
    requires streams { AreFor ports.now streams.now }
    ensures { result ≡ last_of_all_nets ports.now streams.now }
{
    let nets = ports.nets.as_slice();
    if nets.is_empty() {
        return 0;
    }
    last_from(greatest_offset(nets), ports, streams)
}

/// Returns the raster of so many variables, if memory could have places for all bits.
pub fn raster_of(ports: &Ports, cycles: usize, variables: usize, last: u64) -> Option<Raster>
    ensures raster { IfSome result (λ raster. raster
        ≡ record {
          variables = variables;
          period = ports.now.p;
          bits = cycles * variables;
          last =
              last;
        }) }
    ensures small { cycles < 2 ^ 64 }
{
    let bits = cycles.checked_mul(variables)?;
    Some(Raster {
        variables,
        period: ports.p,
        bits,
        last,
    })
}

/// Returns the bits that nets show in a run, at the places of a raster: one row for each cycle,
/// with the nets of context 0 first. The run goes on to the last bit, or to the first bit after an
/// injection whose cell was no conductor.
pub fn bits_of_nets(
    alloc: Global,
    run: &mut Run,
    ports: &Ports,
    raster: &Raster,
) -> Result<PackedBits, SimulateError>
    requires run { IsBandRun run.old }
    requires begun { run.old.generation ≡ 0 }
    requires fits { (cycles : ℕ) × FitsNets ports.now cycles raster.now }
    ensures gone { OnOk result (HasGoneOn raster.now.last run.old run.new) }
    ensures long { IfOk result (λ bits. length bits ≡ raster.now.bits) }
    ensures bits { IfOk result (λ bits. (n cycle : ℕ) (variable : NetInContext) →
        slice_get (nets_in_contexts ports.now) n ≡ Some variable
        → cycle * raster.now.variables + n < raster.now.bits
        → flag_at bits (cycle * raster.now.variables + n)
        ≡ is_head (planes_of run.old (variable.net.offset + 32 * variable.context +
        cycle * ports.now.p) (pos variable.net.x) (pos variable.net.y))) }
    ensures refused { IfErr result (HasRunCause (first_miss_of run.old raster.now.last)) }
{
    let first = sorted_first_bits(alloc, ports)?;
    read_bits(alloc, run, first, raster)
}
