// The first bit that each net shows in each context.
ghost use Rattle.std.specs.Prelude.{◌≡◌, ◌+◌, ◌*◌, ◌-◌, ◌^◌, ◌<◌, ◌++◌, All, IfOk, OnOk, length};
ghost use Rattle.std.specs.List.Sorted.{IsPermutation};
ghost use Rattle.vcd_write.specs.DueBits.{AreDueFrom};
ghost use Rattle.vcd_write.specs.FirstBits.{first_due_bits};
ghost use Rattle.vcd_write.specs.NetWaves.{nets_in, nets_in_contexts};

use crate::due_bits::DueBit;
use drive::CONTEXT_GENERATIONS;
use pattern_reading::{NetLine, Ports};
use std::alloc::{AllocError, Global};

// Adds the first bits of nets in a context.
fn push_context(due: &mut Vec<DueBit>, nets: &[NetLine], context: u64) -> Result<(), AllocError>
    requires room { All (λ net. net.offset + 32 * context < 2 ^ 64) nets.now }
    ensures { OnOk result (
        due.new.items
        ≡ due.old.items ++ first_due_bits (length due.old.items) (nets_in context nets.now)
        ) }
{
    for net in nets {
        let place = due.len();
        due.push(DueBit {
            generation: net.offset + CONTEXT_GENERATIONS * context,
            place,
            x: net.x,
            y: net.y,
        })?;
    }
    Ok(())
}

// The first bits of nets, one context after the other.
fn unsorted(alloc: Global, ports: &Ports) -> Result<Vec<DueBit>, AllocError>
    requires room { All (λ net. net.offset + 32 * (ports.now.c - 1) < 2 ^ 64) ports.now.nets }
    ensures { IfOk result (λ due. due.items ≡ first_due_bits 0 (nets_in_contexts ports.now)) }
{
    let mut due = Vec::new(alloc);
    if ports.nets.len() == 0 {
        return Ok(due);
    }
    for context in 0..ports.c {
        push_context(&mut due, ports.nets.as_slice(), context)?;
    }
    Ok(due)
}

/// Returns the first bits of nets in all contexts, in the order of their generations.
pub fn sorted_first_bits(alloc: Global, ports: &Ports) -> Result<Vec<DueBit>, AllocError>
    requires room { All (λ net. net.offset + 32 * (ports.now.c - 1) < 2 ^ 64) ports.now.nets }
    ensures same { IfOk result (λ due. IsPermutation
        (first_due_bits 0 (nets_in_contexts ports.now)) due.items) }
    ensures order { IfOk result (λ due. AreDueFrom 0 due.items) }
{
    let mut due = unsorted(alloc, ports)?;
    due.sort_by_key(|bit| bit.generation)?;
    Ok(due)
}
