// The bits that a net shows.
ghost use Rattle.std.specs.Prelude.{◌≡◌, ◌<◌, IfOk, IfErr};
ghost use Rattle.std.specs.List.{find};
ghost use Rattle.std.specs.Option.{option_copied};
ghost use Rattle.ww_rule.specs.Grid.{AreInBox, plane_of};
ghost use Rattle.pattern_reading.specs.Ports.{cells_of};
ghost use Rattle.drive.specs.Driving.{AreFor};
ghost use Rattle.probe_view.specs.Probes.{HasProbed, HasProbeCause, has_name_and_path};

use crate::error::ProbeError;
use drive::{Streams, bits_of_cells};
use lists::List;
use pattern_reading::{NetLine, Ports};
use std::alloc::Global;
use ww_rule::Pattern;

// Whether a net has this name and this path.
fn has_name_and_path(net: &NetLine, name: &[u8], path: &[u8]) -> bool
    ensures { result ≡ has_name_and_path name.now path.now net.now }
{
    net.name.as_slice() == name && net.path.as_slice() == path
}

// The net of this name in the model of this path.
fn net_named<'a>(nets: &'a [NetLine], name: &[u8], path: &[u8]) -> Option<&'a NetLine>
    ensures { option_copied result ≡ find (has_name_and_path name.now path.now) nets.now }
{
    for net in nets {
        if has_name_and_path(net, name, path) {
            return Some(net);
        }
    }
    None
}

/// Returns the bits that a net shows in each context, cycle after cycle, while streams drive the
/// pattern. Bit t in context c is 1 exactly if the net's cell is a head at generation
/// `offset + 32 c + t p`. The net is the one of this name in the model of this path, which is `-`
/// for the main model. A call needs at least one cycle, one stream with a bit for each cycle for
/// each input of each context, and inputs inside the pattern's box; the net's cell may lie
/// anywhere. `TooFar` comes if the last of these generations is over 4,294,967,296, and then
/// nothing is run. `NotQuiet` names the first injection up to that generation whose cell is no
/// conductor before the injections of its generation.
pub fn probe(
    alloc: Global,
    pattern: Pattern,
    ports: &Ports,
    streams: &Streams,
    name: &[u8],
    path: &[u8],
) -> Result<List<List<bool>>, ProbeError>
    requires cycles { 0 < streams.now.cycles }
    requires streams { AreFor ports.now streams.now }
    requires in_box { AreInBox pattern.width pattern.height (cells_of ports.now.ins) }
    ensures bits { IfOk result (HasProbed ports.now streams.now
        (plane_of pattern.rows) name.now path.now) }
    ensures refused { IfErr result (HasProbeCause ports.now streams.now
        (plane_of pattern.rows) name.now path.now) }
{
    let Some(net) = net_named(ports.nets.as_slice(), name, path) else {
        return Err(ProbeError::NoSuchNet);
    };
    let cells = [(net.x, net.y)];
    Ok(bits_of_cells(alloc, pattern, ports, streams, net.offset, &cells)?)
}
