// The injections that streams give.
ghost use Rattle.std.specs.Prelude.{◌≡◌, ◌+◌, ◌*◌, ◌<◌, ◌^◌, ◌++◌, length, map, take, drop, IfOk, OnOk};
ghost use Rattle.std.specs.List.{range_with_len};
ghost use Rattle.ww_rule.specs.Due.{AreInOrderFrom};
ghost use Rattle.ww_rule.specs.Injections.{due_of_list, injections_of_row, injections_from};
ghost use Rattle.pattern_reading.specs.Ports.{cells_of};
ghost use Rattle.drive.specs.Driving.{AreFor, due_by, injections_of};

use crate::DriveError;
use pattern_reading::{PortLine, Ports};
use std::alloc::Global;
use streams::{Streams, bits_across};
use ww_rule::Injection;

/// The number of generations from one context to the next.
pub const CONTEXT_GENERATIONS: u64 = 32;

// Adds the injections of a row: at one generation, at the cells of the inputs whose bits are 1.
fn push_row(
    due: &mut Vec<Injection>,
    generation: u128,
    inputs: &[PortLine],
    row: &[bool],
) -> Result<(), DriveError>
    requires { length inputs.now ≡ length row.now }
    ensures { OnOk result (
        due.new.items ≡ due.old.items ++
        injections_of_row generation (cells_of inputs.now) row.now) }
{
    for (i, input) in inputs.iter().enumerate() {
        if row[i] {
            due.push(Injection {
                generation,
                x: input.x,
                y: input.y,
            })?;
        }
    }
    Ok(())
}

// Adds the injections of a cycle that begins at a generation, one context after the other. `bits`
// has the row of each context.
fn push_cycle(
    due: &mut Vec<Injection>,
    generation: u128,
    contexts: usize,
    inputs: &[PortLine],
    bits: &[bool],
) -> Result<(), DriveError>
    requires room { generation + 32 * contexts < 2 ^ 128 }
    requires many { length bits.now ≡ contexts * length inputs.now }
    ensures { OnOk result (due.new.items ≡
        due.old.items ++ injections_from generation 32 (cells_of inputs.now)
        (map (λ context. take (length inputs.now) (drop (context * length inputs.now) bits.now))
        (range_with_len 0 contexts))) }
{
    let long = inputs.len();
    for context in 0..contexts {
        let first = context * long;
        let row = &bits[first..first + long];
        push_row(
            due,
            generation + CONTEXT_GENERATIONS as u128 * context as u128,
            inputs,
            row,
        )?;
    }
    Ok(())
}

/// Returns the cells that streams make heads, each with its generation: the cell of an input at
/// generation `32 k + t p` for each context k and each cycle t in which the input's bit is 1, where
/// p is the table's period. The injections are sorted by generation; those of one generation are of
/// one context, in the order of the inputs. A call needs one stream with a bit for each cycle for
/// each input of each context.
pub fn injections(
    alloc: Global,
    ports: &Ports,
    streams: &Streams,
) -> Result<Vec<Injection>, DriveError>
    requires { AreFor ports.now streams.now }
    ensures list { IfOk result (λ due. due.items ≡ injections_of ports.now streams.now) }
    ensures due { IfOk result (λ due. due_of_list due.items ≡ due_by ports.now streams.now) }
    ensures sorted { IfOk result (λ due. AreInOrderFrom 0 due.items) }
{
    let mut due = Vec::new(alloc);
    let inputs = ports.ins.as_slice();
    if inputs.is_empty() {
        return Ok(due);
    }
    for cycle in 0..streams.cycles {
        let bits = bits_across(alloc, streams.bits.as_slice(), cycle)?;
        let generation = cycle as u128 * ports.p as u128;
        push_cycle(&mut due, generation, ports.c as usize, inputs, &bits)?;
    }
    Ok(due)
}
