// The columns of the body, read from rows of cells.
ghost use Rattle.std.specs.Prelude.{◌≡◌, ◌+◌, ◌*◌, ◌<◌, ◌^◌, ◌++◌, map, option_to_list, IfOk, OnOk};
ghost use Rattle.tile_match.specs.Blocks.{column_shown, columns_shown};

use crate::reading::instr_in;
use lane_core::{Column, Instr};
use lists::List;
use std::alloc::{AllocError, Global};
use ww_rule::CellRows;

fn push_shown(instrs: &mut Vec<Instr>, shown: Option<Instr>) -> Result<(), AllocError>
    ensures { OnOk result (instrs.new.items ≡ instrs.old.items ++ option_to_list shown) }
{
    if let Some(instr) = shown {
        instrs.push(instr)?;
    }
    Ok(())
}

// The instructions of a column that begins at x.
fn instrs_shown(
    alloc: Global,
    rows: &CellRows,
    lanes: u32,
    x: u64,
) -> Result<Vec<Instr>, AllocError>
    requires { x < 2 ^ 63 }
    ensures { IfOk result (λ instrs. instrs.items ≡ column_shown rows.now lanes x) }
{
    let mut instrs = Vec::new(alloc);
    let mut taken = false;
    for lane in 0..lanes.saturating_sub(1) {
        let shown = if taken { None } else { instr_in(rows, x, lane) };
        push_shown(&mut instrs, shown)?;
        taken = shown.is_some();
    }
    Ok(instrs)
}

fn column_shown(alloc: Global, rows: &CellRows, lanes: u32, x: u64) -> Result<Column, AllocError>
    requires { x < 2 ^ 63 }
    ensures { IfOk result (λ column. column.instrs ≡ column_shown rows.now lanes x) }
{
    Ok(Column {
        instrs: List::of(instrs_shown(alloc, rows, lanes, x)?),
    })
}

/// Returns `count` columns, which begin right of the turns of the loops.
pub fn columns_shown(
    alloc: Global,
    rows: &CellRows,
    lanes: u32,
    loops: u32,
    count: u64,
) -> Result<Vec<Column>, AllocError>
    requires { count < 2 ^ 40 }
    ensures { IfOk result (λ columns.
        map (λ column. column.instrs) columns.items ≡ columns_shown rows.now lanes loops count
        ) }
{
    let mut columns = Vec::new(alloc);
    for column in 0..count {
        let x = 32 * (loops as u64 + column);
        columns.push(column_shown(alloc, rows, lanes, x)?)?;
    }
    Ok(columns)
}
