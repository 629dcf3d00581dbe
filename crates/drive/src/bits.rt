// The bits that cells of a pattern show under streams.
ghost use Rattle.std.specs.Prelude.{◌≡◌, ◌+◌, ◌*◌, ◌-◌, ◌<◌, ◌≤◌, ◌++◌, IfOk, IfErr, OnOk, None};
ghost use Rattle.ww_rule.specs.Grid.{AreInBox, plane_of};
ghost use Rattle.pattern_reading.specs.Ports.{cells_of};
ghost use Rattle.drive.specs.Driving.{AreFor, bits_of_cells, first_miss, greatest_generation, last_from};
ghost use Rattle.drive.specs.Driving.{HasRunCause, HasSimulateCause};
ghost use Rattle.drive.specs.Runs.{HasGoneOn, IsBandRun, first_miss_of, planes_of};
ghost use Rattle.drive.specs.Shown.{bits_on, columns_of_cells, row_of_cycle, rows_of_cycles};

use crate::driving::CONTEXT_GENERATIONS;
use crate::error::SimulateError;
use crate::run::Run;
use lists::List;
use pattern_reading::Ports;
use std::alloc::{AllocError, Global};
use streams::{Streams, columns_of};
use ww_rule::Pattern;

/// The greatest number of generations that a run may need.
pub const GREATEST_GENERATION: u128 = 4_294_967_296;

// Adds the bits that cells show to a row.
fn push_bits(row: &mut Vec<bool>, run: &Run, cells: &[(u64, u64)]) -> Result<(), AllocError>
    requires { IsBandRun run.now }
    ensures { OnOk result (row.new.items ≡
        row.old.items ++ bits_on (planes_of run.now run.now.generation) cells.now) }
{
    for (x, y) in cells {
        row.push(run.is_head(*x, *y))?;
    }
    Ok(())
}

// The bits that cells show in a cycle, one context after the other; the first context shows them at
// generation `first`.
fn row_of_cycle(
    alloc: Global,
    run: &mut Run,
    contexts: u64,
    first: u64,
    cells: &[(u64, u64)],
) -> Result<Vec<bool>, AllocError>
    requires run { IsBandRun run.old }
    requires order { run.old.generation ≤ first }
    requires near { first + 32 * (contexts - 1) ≤ greatest_generation }
    ensures gone { OnOk result (HasGoneOn (first + 32 * (contexts - 1)) run.old run.new) }
    ensures row { IfOk result (λ row. row.items ≡
        row_of_cycle (planes_of run.old) contexts first cells.now) }
{
    let mut row = Vec::new(alloc);
    for context in 0..contexts {
        run.go_on(first + CONTEXT_GENERATIONS * context);
        push_bits(&mut row, run, cells)?;
    }
    Ok(row)
}

// The rows of all cycles, up to the first cycle in which an injection's cell is no conductor.
fn rows_of_cycles(
    alloc: Global,
    run: &mut Run,
    ports: &Ports,
    streams: &Streams,
    first: u64,
    cells: &[(u64, u64)],
) -> Result<Vec<List<bool>>, SimulateError>
    requires run { IsBandRun run.old }
    requires order { run.old.generation ≤ first }
    requires streams { AreFor ports.now streams.now }
    requires near { last_from first ports.now streams.now ≤ greatest_generation }
    ensures gone { OnOk result (HasGoneOn (last_from first ports.now streams.now) run.old run.new) }
    ensures rows { IfOk result (λ rows. rows.items ≡
        rows_of_cycles (planes_of run.old) ports.now.c ports.now.p streams.now.cycles first
        cells.now) }
    ensures refused { IfErr result (HasRunCause (first_miss_of run.old
        (last_from first ports.now streams.now))) }
{
    let mut rows = Vec::new(alloc);
    for cycle in 0..streams.cycles {
        let shown_at = first + cycle as u64 * ports.p;
        rows.push(List::of(row_of_cycle(alloc, run, ports.c, shown_at, cells)?))?;
        run.quiet()?;
    }
    Ok(rows)
}

// The bits of each cell in each context.
fn columns_of_cells(
    alloc: Global,
    run: &mut Run,
    ports: &Ports,
    streams: &Streams,
    first: u64,
    cells: &[(u64, u64)],
) -> Result<List<List<bool>>, SimulateError>
    requires run { IsBandRun run.old }
    requires order { run.old.generation ≤ first }
    requires cycles { 0 < streams.now.cycles }
    requires streams { AreFor ports.now streams.now }
    requires near { last_from first ports.now streams.now ≤ greatest_generation }
    ensures gone { OnOk result (HasGoneOn (last_from first ports.now streams.now) run.old run.new) }
    ensures bits { IfOk result (λ bits. bits ≡
        columns_of_cells (planes_of run.old) ports.now.c ports.now.p streams.now.cycles first
        cells.now) }
    ensures refused { IfErr result (HasRunCause (first_miss_of run.old
        (last_from first ports.now streams.now))) }
{
    if cells.is_empty() {
        return Ok(List::of(Vec::new(alloc)));
    }
    let rows = rows_of_cycles(alloc, run, ports, streams, first, cells)?;
    Ok(columns_of(alloc, &rows, rows[0].len())?)
}

/// Returns the generation at which the last bits are shown under streams, if the first ones are
/// shown at `first`.
pub fn last_from(first: u64, ports: &Ports, streams: &Streams) -> u128
    requires cycles { 0 < streams.now.cycles }
    requires streams { AreFor ports.now streams.now }
    ensures { result ≡ last_from first ports.now streams.now }
{
    let before_last = CONTEXT_GENERATIONS as u128 * (ports.c as u128 - 1)
        + (streams.cycles as u128 - 1) * ports.p as u128;
    first as u128 + before_last
}

/// Returns the bits that cells show in each context, cycle after cycle, while streams drive a
/// pattern. All cells of context 0 come first. Bit t of a cell in context k is 1 exactly if the
/// cell is a head at generation `first + 32 k + t p`. A call needs at least one cycle, one stream
/// with a bit for each cycle for each input of each context, and inputs inside the pattern's box;
/// the cells may lie anywhere. `TooFar` comes if the last of these generations is over
/// 4,294,967,296, and then nothing is run. `NotQuiet` names the first injection up to that
/// generation whose cell is no conductor before the injections of its generation.
pub fn bits_of_cells(
    alloc: Global,
    pattern: Pattern,
    ports: &Ports,
    streams: &Streams,
    first: u64,
    cells: &[(u64, u64)],
) -> Result<List<List<bool>>, SimulateError>
    requires cycles { 0 < streams.now.cycles }
    requires streams { AreFor ports.now streams.now }
    requires in_box { AreInBox pattern.width pattern.height (cells_of ports.now.ins) }
    ensures near { OnOk result (last_from first ports.now streams.now ≤ greatest_generation) }
    ensures quiet { OnOk result (
        first_miss ports.now streams.now (plane_of pattern.rows)
        (last_from first ports.now streams.now) ≡ None) }
    ensures bits { IfOk result (λ bits.
        bits ≡ bits_of_cells ports.now streams.now (plane_of pattern.rows) first cells.now) }
    ensures refused { IfErr result (
        HasSimulateCause ports.now streams.now (plane_of pattern.rows)
        (last_from first ports.now streams.now)) }
{
    let generations = last_from(first, ports, streams);
    if generations > GREATEST_GENERATION {
        return Err(SimulateError::TooFar { generations });
    }
    let mut run = Run::of_streams(alloc, pattern, ports, streams)?;
    let bits = columns_of_cells(alloc, &mut run, ports, streams, first, cells)?;
    run.pass_injections(generations as u64);
    run.quiet()?;
    Ok(bits)
}
