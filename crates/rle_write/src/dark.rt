// Rows of cells in which no electron stands at generation 0.
ghost use Rattle.std.specs.Prelude.{◌≡◌, ◌+◌, ◌-◌, ◌<◌, ◌^◌, ◌&&◌, nat_le, true};
ghost use Rattle.std.specs.List.{list_any};
ghost use Rattle.lane_core.specs.Plans.{IsAdmissible};
ghost use Rattle.rle_write.specs.Dark.{IsDark};

use lane_core::{Plan, Start};

// Whether a start is in row `y`, or in the row above or below it.
fn is_near(start: &Start, y: u64) -> bool
    requires { y < 2 ^ 60 }
    ensures { result ≡ (nat_le (y - 1) start.now.y && nat_le start.now.y (y + 1)) }
{
    y.saturating_sub(1) <= start.y && start.y <= y + 1
}

// Whether one of these starts is in row `y`, or in the row above or below it.
fn has_near(starts: &[Start], y: u64) -> bool
    requires { y < 2 ^ 60 }
    ensures { result ≡ list_any
        (λ start. nat_le (y - 1) start.y && nat_le start.y (y + 1)) starts.now }
{
    starts.iter().any(|start| is_near(start, y))
}

/// Returns whether row `y` is known to have no electron. The electrons of a tape are not looked at,
/// so with one no row is.
pub fn is_dark(plan: &Plan, y: u64) -> bool
    requires admissible { IsAdmissible plan.now }
    requires low { y < 2 ^ 60 }
    ensures { result ≡ true → IsDark plan.now y }
{
    plan.tape.len() == 0 && !has_near(plan.starts.list.as_slice(), y)
}
