// Injections at cells of a pattern, before it begins.
ghost use Rattle.std.specs.Prelude.{◌≡◌, All, pos};
ghost use Rattle.std.specs.List.{find};
ghost use Rattle.ww_rule.specs.Grid.{plane_of};
ghost use Rattle.ww_rule.specs.Wireworld.{Due};
ghost use Rattle.drive.specs.Misses.{is_conductor, misses};

use ww_rule::{Injection, Pattern, State};

// Whether a cell of a pattern is a conductor.
fn is_conductor(pattern: &Pattern, x: u64, y: u64) -> bool
    ensures { result ≡ is_conductor (plane_of pattern.now.rows (pos x) (pos y)) }
{
    let row = pattern.rows.row_or_none(y as usize);
    matches!(row.get(x as usize), Some(State::Conductor))
}

/// Returns the first of these injections of generation 0 whose cell is no conductor.
pub fn first_on_pattern(pattern: &Pattern, injections: &[Injection]) -> Option<Injection>
    requires { All (λ i. i.generation ≡ 0) injections.now }
    ensures { (due : Due) → result ≡ find (misses due (plane_of pattern.now.rows)) injections.now }
{
    for injection in injections {
        if !is_conductor(pattern, injection.x, injection.y) {
            return Some(*injection);
        }
    }
    None
}
