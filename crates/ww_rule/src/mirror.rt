// Patterns, mirrored.
ghost use Rattle.std.specs.Prelude.{◌≡◌, ◌-ℤ◌, pos, IfOk};
ghost use Rattle.ww_rule.specs.Grid.{plane_of};
ghost use Rattle.ww_rule.specs.Laws.{mirrored};

use crate::RuleError;
use crate::pattern::Pattern;
use crate::rows::reversed;
use std::alloc::Global;

/// Mirrors a pattern from west to east: the columns x and width - 1 - x change places.
pub fn mirror_x(alloc: Global, pattern: &Pattern) -> Result<Pattern, RuleError>
    ensures width { IfOk result (λ mirror. mirror.width ≡ pattern.now.width) }
    ensures height { IfOk result (λ mirror. mirror.height ≡ pattern.now.height) }
    ensures cells { IfOk result (λ mirror.
        plane_of mirror.rows
        ≡ mirrored (pos pattern.now.width -ℤ pos 1) (plane_of pattern.now.rows)
        ) }
{
    let rows = reversed(alloc, &pattern.rows)?;
    Ok(Pattern {
        width: pattern.width,
        height: pattern.height,
        rows,
    })
}
