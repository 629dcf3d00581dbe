// The columns of a plan, one after another.
ghost use Rattle.std.specs.Prelude.{◌≡◌, ◌<◌, ◌++◌, false, All, length, option_to_list, slice_set, ◌+◌, IfOk, OnOk};
ghost use Rattle.lane_core.specs.Instrs.{IsOnLanes};
ghost use Rattle.lane_core.specs.Columns.{IsColumnOnLanes};
ghost use Rattle.lane_core.specs.Plans.{IsAdmissible};
ghost use Rattle.cell_core.specs.Loops.{names_one};
ghost use Rattle.cell_meaning.specs.Computes.{ComputesByPlan};
ghost use Rattle.circuit_plans.specs.Circuits.{first_bits, without_nets};
ghost use Rattle.circuit_plans.specs.Lifted.{lanes_of, cells_made, upper_source, lower_source, lift_instr, lift_instrs, lift_columns, entry_sources};
ghost use Rattle.circuit_plans.specs.Lists.{IsListOf};

use crate::entry::entry_sources;
use crate::leaving::{sources_leaving, sources_on};
use crate::{LiftError, first_bits};
use cell_core::{Cell, CellList, Src};
use lane_core::{Column, Instr, Plan};
use lists::List;
use std::alloc::{AllocError, Global};

fn cell_made(instr: Instr, a: Src, b: Src) -> Option<Cell>
    ensures { option_to_list result ≡ cells_made instr a b }
{
    match instr {
        Instr::Swap(_) | Instr::Fork(_) => None,
        Instr::Xor(_) => Some(Cell::Xor(a, b)),
        Instr::Or(_) => Some(Cell::Or(a, b)),
        Instr::AndNot(_) => Some(Cell::AndNot(a, b)),
    }
}

// What an instruction puts on its upper and its lower lane.
fn sources_made(instr: Instr, next: u32, a: Src, b: Src) -> (Src, Src)
    ensures upper { result.0 ≡ upper_source instr next a b }
    ensures lower { result.1 ≡ lower_source instr a b }
{
    match instr {
        Instr::Swap(_) => (b, a),
        Instr::Fork(_) => (a, a),
        Instr::Xor(_) | Instr::Or(_) | Instr::AndNot(_) => (Src::Cell(next), Src::Zero),
    }
}

fn push_cell(cells: &mut Vec<Cell>, cell: Option<Cell>) -> Result<(), AllocError>
    ensures { OnOk result (cells.new.items ≡ cells.old.items ++ option_to_list cell) }
{
    if let Some(cell) = cell {
        cells.push(cell)?;
    }
    Ok(())
}

// Puts what an instruction makes on its lanes.
fn put_made(sources: &mut [Src], lane: usize, upper: Src, lower: Src)
    requires { lane + 1 < length sources.old }
    ensures { sources.new ≡ slice_set (slice_set sources.old lane upper) (lane + 1) lower }
{
    sources[lane] = upper;
    sources[lane + 1] = lower;
}

fn lift_instr(cells: &mut Vec<Cell>, sources: &mut [Src], instr: Instr) -> Result<(), LiftError>
    requires { IsOnLanes (length sources.old) instr }
    ensures { OnOk result (lanes_of cells.new.items sources.new ≡
        lift_instr (lanes_of cells.old.items sources.old) instr) }
{
    let lane = instr.lane() as usize;
    let (a, b) = (sources[lane], sources[lane + 1]);
    let Ok(next) = u32::try_from(cells.len()) else {
        return Err(LiftError::NoMemory);
    };
    let (upper, lower) = sources_made(instr, next, a, b);
    push_cell(cells, cell_made(instr, a, b))?;
    put_made(sources, lane, upper, lower);
    Ok(())
}

fn lift_instrs(
    cells: &mut Vec<Cell>,
    sources: &mut [Src],
    instrs: &[Instr],
) -> Result<(), LiftError>
    requires { All (IsOnLanes (length sources.old)) instrs.now }
    ensures { OnOk result (lanes_of cells.new.items sources.new ≡
        lift_instrs (lanes_of cells.old.items sources.old) instrs.now) }
{
    for instr in instrs {
        lift_instr(cells, sources, *instr)?;
    }
    Ok(())
}

fn lift_columns(
    cells: &mut Vec<Cell>,
    sources: &mut [Src],
    columns: &[Column],
) -> Result<(), LiftError>
    requires { All (IsColumnOnLanes (length sources.old)) columns.now }
    ensures { OnOk result (lanes_of cells.new.items sources.new ≡
        lift_columns (lanes_of cells.old.items sources.old) columns.now) }
{
    for column in columns {
        lift_instrs(cells, sources, column.instrs.as_slice())?;
    }
    Ok(())
}

// The list of cells that a plan's columns make of what enters them, lane by lane.
fn list_of(
    alloc: Global,
    plan: &Plan,
    inputs: u32,
    sources: &mut [Src],
) -> Result<CellList, LiftError>
    requires admissible { IsAdmissible plan.now }
    requires inputs { inputs ≡ length plan.now.ins }
    requires entry { sources.old ≡ entry_sources plan.now }
    ensures { IfOk result (λ list. IsListOf plan.now list) }
{
    let mut cells = Vec::new(alloc);
    lift_columns(&mut cells, sources, plan.columns.as_slice())?;
    let outs = sources_on(alloc, sources, plan.outs.as_slice())?;
    let latches = sources_leaving(alloc, sources, plan.lanes, plan.latches)?;
    let starts = first_bits(alloc, plan)?;
    Ok(CellList {
        inputs,
        cells: List::of(cells),
        outs: List::of(outs),
        latches: List::of(latches),
        starts: List::of(starts),
        nets: List::of(Vec::new(alloc)),
    })
}

/// Returns the cells that the columns of a plan make, column by column and in each column by lane,
/// with the plan's loops as latches. It does not look at the plan's nets, and the list has none.
/// The list names no constant 1: a loop of constant 1 of the plan is a latch here, which starts
/// with 1 and feeds itself.
pub fn cells_of(alloc: Global, plan: &Plan) -> Result<CellList, LiftError>
    requires admissible { IsAdmissible plan.now }
    ensures list { IfOk result (IsListOf plan.now) }
    ensures computes { IfOk result (λ list. ComputesByPlan list (without_nets plan.now)) }
    ensures starts { IfOk result (λ list. list.starts ≡ first_bits plan.now) }
    ensures no_one { IfOk result (λ list. names_one list ≡ false) }
{
    let Ok(inputs) = u32::try_from(plan.ins.len()) else {
        return Err(LiftError::NoMemory);
    };
    let mut sources = entry_sources(alloc, plan)?;
    list_of(alloc, plan, inputs, &mut sources)
}
