// The variables of all nets of a pattern that streams drive, with their bits.
ghost use Rattle.std.specs.Prelude.{◌≡◌, ◌≤◌, ◌<◌, None, IfErr, IfOk, OnOk};
ghost use Rattle.ww_rule.specs.Grid.{AreInBox, plane_of};
ghost use Rattle.pattern_reading.specs.Ports.{cells_of};
ghost use Rattle.pattern_reading.specs.SoundTable.{IsSoundTable};
ghost use Rattle.drive.specs.Driving.{AreFor, HasSimulateCause, first_miss, greatest_generation};
ghost use Rattle.vcd_write.specs.Laws.{AreSameWaves, SaysWaves};
ghost use Rattle.vcd_write.specs.NetWaves.{last_of_all_nets, net_waves};
ghost use Rattle.vcd_write.specs.Vcd.{waves_in};

use crate::net_bits::{bits_of_nets, last_of_all_nets, raster_of};
use crate::references::references_of;
use crate::vcd::Vcd;
use drive::{GREATEST_GENERATION, Run, SimulateError};
use pattern_reading::Ports;
use std::alloc::Global;
use streams::Streams;
use ww_rule::Pattern;

/// Returns the variables of all nets of a pattern in each context, with the bits that they show
/// while streams drive the pattern. If there are n nets, variable `c n + i` is net i in context c,
/// and its bit in cycle t is 1 exactly if the net's cell is a head at generation
/// `offset + 32 c + t p`. All bits are read in one run. A call needs at least one cycle, one stream
/// with a bit for each cycle for each input of each context, and inputs inside the pattern's box;
/// the nets' cells may lie anywhere. `TooFar` comes if the last of these generations, which is 0
/// without nets, is over 4,294,967,296, and then nothing is run. `NotQuiet` names the first
/// injection up to that generation whose cell is no conductor before the injections of its
/// generation.
pub fn of(
    alloc: Global,
    pattern: Pattern,
    ports: &Ports,
    streams: &Streams,
) -> Result<Vcd, SimulateError>
    requires cycles { 0 < streams.now.cycles }
    requires streams { AreFor ports.now streams.now }
    requires in_box { AreInBox pattern.width pattern.height (cells_of ports.now.ins) }
    ensures near { OnOk result (last_of_all_nets ports.now streams.now ≤ greatest_generation) }
    ensures quiet { OnOk result (
        first_miss ports.now streams.now (plane_of pattern.rows)
        (last_of_all_nets ports.now streams.now) ≡ None) }
    ensures waves { IfOk result (λ vcd.
        AreSameWaves (waves_in vcd) (net_waves ports.now streams.now (plane_of pattern.rows))) }
    ensures says { OnOk result (IsSoundTable ports.now
        → SaysWaves (net_waves ports.now streams.now (plane_of pattern.rows))) }
    ensures refused { IfErr result (
        HasSimulateCause ports.now streams.now (plane_of pattern.rows)
        (last_of_all_nets ports.now streams.now)) }
{
    let generations = last_of_all_nets(ports, streams);
    if generations > GREATEST_GENERATION {
        return Err(SimulateError::TooFar { generations });
    }
    let last = generations as u64;
    let references = references_of(alloc, ports)?;
    let Some(raster) = raster_of(ports, streams.cycles, references.len(), last) else {
        return Err(SimulateError::NoMemory);
    };
    let mut run = Run::of_streams(alloc, pattern, ports, streams)?;
    let bits = bits_of_nets(alloc, &mut run, ports, &raster)?;
    run.pass_injections(last);
    run.quiet()?;
    Ok(Vcd {
        cycles: streams.cycles,
        references,
        bits,
    })
}
