// A netlist run cycle by cycle.
ghost use Rattle.std.specs.Prelude.{ℕ, ◌≡◌, ◌<◌, List, [], All, length, IfOk};
ghost use Rattle.netlist_core.specs.declared.model.Design.{Design};
ghost use Rattle.netlist_meaning.specs.Flat.{IsSound};
ghost use Rattle.netlist_meaning.specs.FlatOrder.{IsOrder};
ghost use Rattle.streams.specs.Rows.{bits_across};
ghost use Rattle.netlist_run.specs.Runs.{AreRowsInRun, Ran, ShowsRun};
ghost use Rattle.netlist_text.specs.Parts.{AreParts};

use crate::RunError;
use lists::List;
use netlist_core::{Flat, Order};
use netlist_eval::Machine;
use netlist_text::Netlist;
use std::alloc::{AllocError, Global};
use streams::{Streams, columns_of};

// Puts the bit at `place` of each list into a row.
fn put_column(lists: &[List<bool>], place: usize, row: &mut [bool])
    requires long { All (λ bits. place < length bits) lists.now }
    requires many { length row.old ≡ length lists.now }
    ensures { row.new ≡ bits_across lists.now place }
{
    for (k, bits) in lists.iter().enumerate() {
        row[k] = *bits.get(place);
    }
}

// The outputs' bits of each cycle that a machine shows under the streams. `row` and `shown` are
// room for its inputs' and its outputs' bits.
fn machine_rows(
    alloc: Global,
    machine: &mut Machine<'_>,
    streams: &Streams,
    row: &mut [bool],
    shown: &mut [bool],
) -> Result<Vec<List<bool>>, AllocError>
    requires inputs { length row.old ≡ length machine.old.flat.ins }
    requires outputs { length shown.old ≡ length machine.old.flat.outs }
    requires many { length streams.now.bits ≡ length machine.old.flat.ins }
    requires long { All (λ bits. length bits ≡ streams.now.cycles) streams.now.bits }
    ensures { IfOk result (λ rows. (design : Design) (order : List ℕ) →
        AreParts design machine.old.flat order →
        Ran design streams.now 0 [] machine.old.state →
        Ran design streams.now streams.now.cycles rows.items machine.new.state) }
{
    let mut rows = Vec::with_capacity(alloc, streams.cycles)?;
    for cycle in 0..streams.cycles {
        put_column(streams.bits.as_slice(), cycle, row);
        machine.cycle(row, shown);
        rows.push(List::of(shown.to_vec(alloc)?))?;
    }
    Ok(rows)
}

// The outputs' bits of each cycle, for a machine in its first state.
fn rows_in_run(
    alloc: Global,
    flat: &Flat,
    order: Order,
    streams: &Streams,
) -> Result<Vec<List<bool>>, RunError>
    requires sound { IsSound flat.now }
    requires ordered { IsOrder flat.now order.nodes }
    requires many { length streams.now.bits ≡ length flat.now.ins }
    requires long { All (λ bits. length bits ≡ streams.now.cycles) streams.now.bits }
    ensures { IfOk result (λ rows. AreRowsInRun flat.now streams.now rows.items) }
{
    let mut row = vec![in alloc; false; flat.ins.len()]?;
    let mut shown = vec![in alloc; false; flat.outs.len()]?;
    let mut machine = Machine::new(alloc, flat, order)?;
    Ok(machine_rows(alloc, &mut machine, streams, &mut row, &mut shown)?)
}

// The bits of each output, cycle after cycle, in the run of a flat netlist under streams.
fn columns_in_run(
    alloc: Global,
    flat: &Flat,
    order: Order,
    streams: &Streams,
) -> Result<List<List<bool>>, RunError>
    requires parts { (design : Design) × AreParts design flat.now order.nodes }
    requires many { length streams.now.bits ≡ length flat.now.ins }
    requires long { All (λ bits. length bits ≡ streams.now.cycles) streams.now.bits }
    ensures { IfOk result (λ columns. (design : Design) → AreParts design flat.now order.nodes
        → ShowsRun design streams.now columns) }
{
    let rows = rows_in_run(alloc, flat, order, streams)?;
    Ok(columns_of(alloc, &rows, flat.outs.len())?)
}

/// Returns the bits of each main output, cycle after cycle, in the netlist's run under the streams
/// of its inputs.
pub fn run(alloc: Global, netlist: Netlist, streams: &Streams) -> Result<List<List<bool>>, RunError>
    requires parts { AreParts netlist.design netlist.flat netlist.order.nodes }
    requires many { length streams.now.bits ≡ length netlist.flat.ins }
    requires long { All (λ bits. length bits ≡ streams.now.cycles) streams.now.bits }
    ensures { IfOk result (ShowsRun netlist.design streams.now) }
{
    let Netlist { flat, order, .. } = netlist;
    columns_in_run(alloc, &flat, order, streams)
}
