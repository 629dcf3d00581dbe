// The bits that a pattern's outputs show under streams.
ghost use Rattle.std.specs.Prelude.{◌≡◌, ◌<◌, ◌≤◌, IfOk, IfErr, OnOk, None};
ghost use Rattle.ww_rule.specs.Grid.{AreInBox, plane_of};
ghost use Rattle.pattern_reading.specs.Ports.{cells_of};
ghost use Rattle.drive.specs.Driving.{AreFor, first_miss, shown_bits, greatest_generation, last_generation, HasSimulateCause};

use crate::bits::bits_of_cells;
use crate::error::SimulateError;
use lists::List;
use pattern_reading::{PortLine, Ports};
use std::alloc::{AllocError, Global};
use streams::Streams;
use ww_rule::Pattern;

// The cells of port lines.
fn cells_of(alloc: Global, lines: &[PortLine]) -> Result<Vec<(u64, u64)>, AllocError>
    ensures { IfOk result (λ cells. cells.items ≡ cells_of lines.now) }
{
    lines.iter().map(|line| (line.x, line.y)).collect(alloc)
}

/// Returns the bits that each output of a pattern shows in each context, cycle after cycle, while
/// streams drive the pattern. All outputs of context 0 come first. Bit t of an output in context k
/// is 1 exactly if its cell is a head at generation `l + 32 k + t p`. A call needs at least one
/// cycle, one stream with a bit for each cycle for each input of each context, and inputs inside
/// the pattern's box. `TooFar` comes if the last of these generations is over 4,294,967,296, and
/// then nothing is run. `NotQuiet` names the first injection up to that generation whose cell is no
/// conductor before the injections of its generation.
pub fn simulate(
    alloc: Global,
    pattern: Pattern,
    ports: &Ports,
    streams: &Streams,
) -> Result<List<List<bool>>, SimulateError>
    requires cycles { 0 < streams.now.cycles }
    requires streams { AreFor ports.now streams.now }
    requires in_box { AreInBox pattern.width pattern.height (cells_of ports.now.ins) }
    ensures near { OnOk result (last_generation ports.now streams.now ≤ greatest_generation) }
    ensures quiet { OnOk result (
        first_miss ports.now streams.now (plane_of pattern.rows)
        (last_generation ports.now streams.now) ≡ None) }
    ensures bits { IfOk result (λ bits. bits ≡
        shown_bits ports.now streams.now (plane_of pattern.rows)) }
    ensures refused { IfErr result (
        HasSimulateCause ports.now streams.now (plane_of pattern.rows)
        (last_generation ports.now streams.now)) }
{
    let cells = cells_of(alloc, ports.outs.as_slice())?;
    bits_of_cells(alloc, pattern, ports, streams, ports.l, &cells)
}
