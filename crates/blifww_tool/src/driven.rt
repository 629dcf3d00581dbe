// A text's pattern, and the streams that drive it.
ghost use Rattle.std.specs.Prelude.{◌≡◌, ◌++◌, map, flat_map, string_bytes, IfOk, IfErr, OnOk};
ghost use Rattle.std.specs.List.{range_with_len};
ghost use Rattle.ww_rule.specs.Grid.{AreInBox};
ghost use Rattle.pattern_reading.specs.Ports.{cells_of};
ghost use Rattle.drive.specs.Driving.{AreFor};
ghost use Rattle.blifww_tool.specs.Simulation.{IsSimulation, HasStreamsCause};
ghost use Rattle.blifww_tool.specs.Driven.{names_in_context, simulation_of};

use drive::Streams;
use lists::Bytes;
use pattern_reading::{PortLine, Ports};
use program_runs::TextError;
use std::alloc::{AllocError, Global};
use streams::with_context;
use ww_rule::Pattern;

/// A pattern, its ports, and streams for its inputs.
#[derive(Drop)]
pub struct Driven {
    pub pattern: Pattern,
    pub ports: Ports,
    pub streams: Streams,
}

// Adds the names of ports as they stand before their bits in a context.
fn push_names(
    alloc: Global,
    names: &mut Vec<Bytes>,
    ports: &[PortLine],
    context: u64,
    contexts: u64,
) -> Result<(), AllocError>
    ensures { OnOk result (names.new.items ≡
        names.old.items ++ names_in_context contexts ports.now context) }
{
    for port in ports {
        let name = with_context(alloc, contexts, context, port.name.as_slice())?;
        names.push(Bytes::of(name))?;
    }
    Ok(())
}

/// Returns the names of ports as they stand before their bits in each context: all those of context
/// 0 first.
pub fn names_in_contexts(
    alloc: Global,
    ports: &[PortLine],
    contexts: u64,
) -> Result<Vec<Bytes>, AllocError>
    ensures { IfOk result (λ names.
        names.items ≡ flat_map (names_in_context contexts ports.now) (range_with_len 0 contexts)) }
{
    let mut names = Vec::new(alloc);
    for context in 0..contexts {
        push_names(alloc, &mut names, ports, context, contexts)?;
    }
    Ok(names)
}

/// Reads the text's pattern and ports. The words are the streams of the inputs in each of the
/// table's contexts.
pub fn driven_by(
    alloc: Global,
    cycles: usize,
    words: &[String],
    text: &[u8],
) -> Result<Driven, TextError>
    ensures is { IfOk result (λ d. IsSimulation cycles (map string_bytes words.now) text.now
        (simulation_of d)) }
    ensures streams { IfOk result (λ d. AreFor d.ports d.streams) }
    ensures in_box { IfOk result (λ d. AreInBox d.pattern.width d.pattern.height
        (cells_of d.ports.ins)) }
    ensures refused { IfErr result (HasStreamsCause cycles (map string_bytes words.now) text.now) }
{
    let pattern = rle_read::read(alloc, text)?;
    let ports = port_table::read(alloc, text, pattern.width, pattern.height)?;
    let names = pattern_reading::names_of(alloc, ports.ins.as_slice())?;
    let read = Streams::read(alloc, words, &names, cycles, ports.c);
    drop(names);
    let streams = read?;
    Ok(Driven {
        pattern,
        ports,
        streams,
    })
}
