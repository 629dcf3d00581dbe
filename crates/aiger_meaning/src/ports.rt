// Ports and latches.
ghost use Rattle.std.specs.Prelude.{◌≡◌, ◌+◌, ◌<◌, ◌^◌, length, IfOk};
ghost use Rattle.aiger_meaning.specs.FlatOf.{latch_between, latches_from, ports_from};

use aiger_text::AigLatch;
use netlist_core::{FlatLatch, FlatPort, NetId};
use std::alloc::{AllocError, Global};

/// Makes `count` ports, on the nets from `net` on.
pub fn ports_from(alloc: Global, net: usize, count: usize) -> Result<Vec<FlatPort>, AllocError>
    requires { net + count < 2 ^ 32 }
    ensures { IfOk result (λ ports. ports.items ≡ ports_from net count) }
{
    let mut ports = Vec::with_capacity(alloc, count)?;
    for i in 0..count {
        ports.push(FlatPort {
            line: 0,
            net: NetId((net + i) as u32),
        })?;
    }
    Ok(ports)
}

// A latch between two nets.
fn latch_between(input: u32, output: u32, latch: AigLatch) -> FlatLatch
    ensures { result ≡ latch_between input output latch }
{
    FlatLatch {
        line: 0,
        input: NetId(input),
        output: NetId(output),
        kind: None,
        control: None,
        init: if latch.reset == 1 { 1 } else { 0 },
    }
}

/// Makes the latches, whose inputs and outputs are the nets from `input` and from `output` on.
pub fn latches_from(
    alloc: Global,
    input: usize,
    output: usize,
    latches: &[AigLatch],
) -> Result<Vec<FlatLatch>, AllocError>
    requires inputs { input + length latches.now < 2 ^ 32 }
    requires outputs { output + length latches.now < 2 ^ 32 }
    ensures { IfOk result (λ flat. flat.items ≡ latches_from input output latches.now) }
{
    let mut flat = Vec::with_capacity(alloc, latches.len())?;
    for (i, latch) in latches.iter().enumerate() {
        flat.push(latch_between((input + i) as u32, (output + i) as u32, *latch))?;
    }
    Ok(flat)
}
