// Streams of bits that are drawn.
ghost use Rattle.std.specs.Prelude.{◌≡◌, ◌==◌, ◌<◌, ◌^◌, IfOk, OnOk};
ghost use Rattle.made_netlists.specs.Draws.{state_after};
ghost use Rattle.made_summary.specs.Streams.{stream_after, streams_after};

use drive::Streams;
use lists::List;
use std::alloc::{AllocError, Global};

// Draws a bit for each cycle.
fn draw_stream(alloc: Global, state: &mut u32, cycles: usize) -> Result<Vec<bool>, AllocError>
    requires state { state.old < 2 ^ 31 }
    ensures stream { IfOk result (λ stream. stream.items ≡ stream_after state.old 0 cycles) }
    ensures state { OnOk result (state.new ≡ state_after state.old cycles) }
    ensures range { OnOk result (state.new < 2 ^ 31) }
{
    let mut stream = Vec::with_capacity(alloc, cycles)?;
    for cycle in 0..cycles {
        stream.push(made_netlists::draw(state, 2) == 1)?;
    }
    Ok(stream)
}

/// Draws the streams of the four inputs of a made netlist in one context, one after another.
pub fn draw_streams(alloc: Global, state: u32, cycles: usize) -> Result<Streams, AllocError>
    requires { state < 2 ^ 31 }
    ensures { IfOk result (λ streams. streams ≡ streams_after state cycles) }
{
    let mut state = state;
    let mut bits = Vec::new(alloc);
    for input in 0..4u32 {
        bits.push(List::of(draw_stream(alloc, &mut state, cycles)?))?;
    }
    Ok(Streams {
        cycles,
        c: 1,
        bits: List::of(bits),
    })
}
