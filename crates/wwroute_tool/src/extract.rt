// The netlist of the routed circuit that a pattern draws.
ghost use Rattle.std.specs.Prelude.{◌≡◌, ◌<◌, ◌≤◌, ◌*◌, false, IfOk, IfErr, IsTrue};
ghost use Rattle.ww_rule.specs.Grid.{plane_of};
ghost use Rattle.tile_match.specs.Names.{has_bad_name};
ghost use Rattle.blif_write.specs.Lift.{IsLiftOfCells, text_of_lift};
ghost use Rattle.routed_circuits.specs.Tables.{ShowsListRuns};
ghost use Rattle.route_tables.specs.Limit.{box_limit};
ghost use Rattle.route_cells.specs.Fits.{FitsPorts};
ghost use Rattle.wwroute_tool.specs.Carried.{GivesNetlist, IsLiftOfPattern};
ghost use Rattle.wwroute_tool.specs.Refusing.{HasNoRoutedCircuit, NeedsNoReason};

use crate::RouteRefusal;
use blif_write::Lift;
use cell_core::CellList;
use gate_library::Drawing;
use pattern_reading::Ports;
use program_runs::{Cause, Refusal};
use route_cells::{RouteError, cells_of};
use route_finder::{DrawingFault, FindError};
use route_tables::{BOX_LIMIT, CellFault, FaultWord};
use std::alloc::Global;
use tile_match::has_bad_name;
use ww_rule::Pattern;

// The refusal of a pattern that is no routed circuit.
fn refused(word: FaultWord, x: u32, y: u32) -> RouteRefusal
    ensures { NeedsNoReason result }
{
    RouteRefusal::NotCircuit(CellFault { word, x, y })
}

fn is_too_large(pattern: &Pattern) -> bool
    ensures large { IsTrue result → box_limit < pattern.now.width * pattern.now.height }
    ensures within { result ≡ false → pattern.now.width * pattern.now.height ≤ box_limit }
{
    u128::from(pattern.width) * u128::from(pattern.height) > u128::from(BOX_LIMIT)
}

// What the search for gates and wires tells.
fn of_find(error: FindError) -> RouteRefusal
    ensures { NeedsNoReason result }
{
    match error {
        FindError::Fault { kind, x, y } => match kind {
            DrawingFault::Gate => refused(FaultWord::Gate, x, y),
            DrawingFault::Wire => refused(FaultWord::Wire, x, y),
            DrawingFault::Port => refused(FaultWord::Port, x, y),
        },
        FindError::TooLarge => refused(FaultWord::Port, 0, 0),
        FindError::NoMemory => RouteRefusal::Common(Refusal::NoMemory),
    }
}

// What the test of gates and wires tells.
fn of_route(error: RouteError) -> RouteRefusal
    ensures { NeedsNoReason result }
{
    match error {
        RouteError::Fault(fault) => RouteRefusal::NotCircuit(fault),
        RouteError::TooLarge { .. } => refused(FaultWord::Port, 0, 0),
        RouteError::NoMemory => RouteRefusal::Common(Refusal::NoMemory),
    }
}

// The drawing by the lines of gates and wires, if the text has these; else as it is found.
fn drawing_of(
    alloc: Global,
    text: &[u8],
    pattern: &Pattern,
    ports: &Ports,
) -> Result<Drawing, RouteRefusal>
    ensures { IfErr result NeedsNoReason }
{
    match route_lines::read(alloc, text, pattern, ports) {
        Ok(Some(drawing)) => Ok(drawing),
        Ok(None) => match route_finder::find(alloc, pattern, ports) {
            Ok(drawing) => Ok(drawing),
            Err(error) => Err(of_find(error)),
        },
        Err(_) => Err(RouteRefusal::Common(Refusal::NoMemory)),
    }
}

// The list of cells that the pattern computes.
fn list_of(
    alloc: Global,
    text: &[u8],
    pattern: &Pattern,
    ports: &Ports,
) -> Result<CellList, RouteRefusal>
    ensures shows { IfOk result (λ list. ShowsListRuns (plane_of pattern.now.rows) ports.now list) }
    ensures fits { IfOk result (FitsPorts ports.now) }
    ensures refused { IfErr result NeedsNoReason }
{
    let drawing = drawing_of(alloc, text, pattern, ports)?;
    let found = cells_of(alloc, pattern, ports, &drawing);
    drop(drawing);
    match found {
        Ok(list) => Ok(list),
        Err(error) => Err(of_route(error)),
    }
}

// The netlist of a list of cells, with the names of the ports.
fn lifted(alloc: Global, list: CellList, ports: &Ports) -> Result<Lift, RouteRefusal>
    requires fits { FitsPorts ports.now list }
    ensures lift { IfOk result (IsLiftOfCells list ports.now) }
    ensures refused { IfErr result NeedsNoReason }
{
    match blif_write::of_cells(alloc, list, ports) {
        Ok(lift) => Ok(lift),
        Err(_) => Err(RouteRefusal::Common(Refusal::NoMemory)),
    }
}

// Whether a name is no word, or memory is too short to tell.
fn named(alloc: Global, ports: &Ports) -> Result<(), RouteRefusal>
    ensures named { IfOk result (λ _. has_bad_name ports.now ≡ false) }
    ensures refused { IfErr result NeedsNoReason }
{
    match has_bad_name(alloc, ports) {
        Ok(false) => Ok(()),
        Ok(true) => Err(refused(FaultWord::Port, 0, 0)),
        Err(_) => Err(RouteRefusal::Common(Refusal::NoMemory)),
    }
}

// The netlist of a pattern with its port table.
fn netlist_of(
    alloc: Global,
    text: &[u8],
    pattern: &Pattern,
    ports: &Ports,
) -> Result<Lift, RouteRefusal>
    ensures carried { IfOk result (λ lift. IsLiftOfPattern pattern.now ports.now lift) }
    ensures refused { IfErr result NeedsNoReason }
{
    named(alloc, ports)?;
    let list = list_of(alloc, text, pattern, ports)?;
    lifted(alloc, list, ports)
}

/// Makes the netlist that the text of a routed circuit carries.
pub fn extract(alloc: Global, text: &[u8]) -> Result<Lift, RouteRefusal>
    ensures carried { IfOk result (λ lift. GivesNetlist text.now (text_of_lift lift)) }
    ensures refused { IfErr result (HasNoRoutedCircuit text.now) }
{
    let pattern = rle_read::read(alloc, text)?;
    let ports = port_table::read(alloc, text, pattern.width, pattern.height)?;
    if is_too_large(&pattern) {
        let (width, height) = (pattern.width, pattern.height);
        drop(ports);
        drop(pattern);
        return Err(RouteRefusal::Common(Refusal::Text(Cause::GridTooLarge { width, height })));
    }
    let lift = netlist_of(alloc, text, &pattern, &ports);
    drop(ports);
    drop(pattern);
    lift
}
