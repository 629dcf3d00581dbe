// Planes: boxes of rows on a ground of empty cells, and their next generations.
ghost use Rattle.std.specs.Prelude.{◌≡◌, IfOk};
ghost use Rattle.ww_rule.specs.Wireworld.{next_plane, injected};
ghost use Rattle.ww_rule.specs.Grid.{IsGrid, AreInBox, plane_of};
ghost use Rattle.ww_rule.specs.Injections.{has_cell};

use crate::RuleError;
use crate::cell_rows::CellRows;
use crate::pattern::{Pattern, State};
use crate::rows::{next_row, row_before};
use std::alloc::Global;

/// A plane with finitely many cells: `height` rows of `width` cells each, from north to south, the
/// first cell at x = 0 and y = 0, and no rows if the box has no cells. All cells outside the box
/// are empty.
#[derive(Drop)]
pub struct Plane {
    pub width: u64,
    pub height: u64,
    pub rows: CellRows,
    ghost in_rows: { IsGrid width height rows },
}

impl Plane {
    ghost use Rattle.ww_rule.specs.Patterns.{grid_of, box_of};

    /// Makes the plane that a pattern stands for: its cells in its box, and empty cells outside.
    pub fn from_pattern(alloc: Global, pattern: &Pattern) -> Result<Plane, RuleError>
        ensures { IfOk result (λ plane. box_of plane ≡ grid_of pattern.now) }
    {
        let rows = pattern.rows.copied(alloc)?;
        Ok(Plane {
            width: pattern.width,
            height: pattern.height,
            rows,
        })
    }

    /// Makes these cells (x, y) of the plane's box heads, whatever they held. So a driven pattern
    /// comes to its generation 0.
    pub fn inject(self, injections: &[(u64, u64)]) -> Plane
        requires in_box { AreInBox self.width self.height injections.now }
        ensures width { result.width ≡ self.width }
        ensures height { result.height ≡ self.height }
        ensures cells { plane_of result.rows ≡ injected (has_cell injections.now)
            (plane_of self.rows) }
    {
        let Plane {
            width,
            height,
            mut rows,
        } = self;
        for (x, y) in injections {
            rows.put(*x as usize, *y as usize, State::Head);
        }
        Plane {
            width,
            height,
            rows,
        }
    }
}

impl From<Pattern> for Plane {
    ghost use Rattle.ww_rule.specs.Patterns.{grid_of, box_of};

    ghost from_gives = { λ pattern plane. box_of plane ≡ grid_of pattern };

    /// Makes the plane that a pattern stands for, from the pattern's own rows.
    fn from(pattern: Pattern) -> Plane {
        Plane {
            width: pattern.width,
            height: pattern.height,
            rows: pattern.rows,
        }
    }
}

/// Computes the next generation of a plane by Silverman's rule: an empty cell stays empty; a head
/// becomes a tail; a tail becomes a conductor; a conductor becomes a head exactly when one or two
/// of its eight neighbours are heads.
pub fn step_plain(alloc: Global, plane: &Plane) -> Result<Plane, RuleError>
    ensures width { IfOk result (λ next. next.width ≡ plane.now.width) }
    ensures height { IfOk result (λ next. next.height ≡ plane.now.height) }
    ensures cells { IfOk result (λ next. plane_of next.rows ≡
        next_plane (plane_of plane.now.rows)) }
{
    let old = &plane.rows;
    let mut rows = CellRows::with_room(alloc, 0, 0)?;
    for y in 0..old.len() {
        let above = row_before(old, y);
        let below = old.row_or_none(y + 1);
        let next = next_row(alloc, above, old.row(y), below)?;
        rows.push_row(next.as_slice())?;
    }
    Ok(Plane {
        width: plane.width,
        height: plane.height,
        rows,
    })
}

/// Computes the next generation of a plane, and then makes these cells (x, y) of its box heads,
/// whatever they hold.
pub fn step_driven(
    alloc: Global,
    plane: &Plane,
    injections: &[(u64, u64)],
) -> Result<Plane, RuleError>
    requires in_box { AreInBox plane.now.width plane.now.height injections.now }
    ensures width { IfOk result (λ next. next.width ≡ plane.now.width) }
    ensures height { IfOk result (λ next. next.height ≡ plane.now.height) }
    ensures cells { IfOk result (λ next.
        plane_of next.rows
        ≡ injected (has_cell injections.now) (next_plane (plane_of plane.now.rows))
        ) }
{
    let next = step_plain(alloc, plane)?;
    Ok(next.inject(injections))
}
