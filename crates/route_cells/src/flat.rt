// The cells of a pattern in one row after the other.
ghost use Rattle.std.specs.Prelude.{◌≡◌, IfOk};
ghost use Rattle.ww_rule.specs.Grid.{plane_of};
ghost use Rattle.tile_timing.specs.Window.{shown};

use lists::OutOfMemory;
use std::alloc::Global;
use ww_rule::{Pattern, State};

/// Copies the cells of a pattern, row after row.
pub fn flat_cells(alloc: Global, pattern: &Pattern) -> Result<Vec<State>, OutOfMemory>
    ensures { IfOk result (λ cells. shown cells.items pattern.now.width ≡
        plane_of pattern.now.rows) }
{
    let mut cells = Vec::new(alloc);
    for y in 0..pattern.rows.len() {
        cells.extend_from_slice(pattern.rows.row(y))?;
    }
    Ok(cells)
}
