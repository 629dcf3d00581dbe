// How long the signals of a tile wait before it.
use strand_core::TileKind;

/// The most generations that one bump takes.
pub const MOST: u32 = 10;

// The signals of a Cross are at least so many generations apart.
const LEAST_APART: u32 = 5;

// As far apart are signals of which one waits at a Cross: the least even number.
const APART: u32 = 6;

/// Which of two signals waits at a Cross where they come too near.
#[derive(Clone, Copy)]
pub enum Choice {
    /// The later one, which waits less; the upper one, if both come at once.
    Later,
    Earlier,
}

impl Choice {
    /// Returns the other choice.
    pub fn other(self) -> Choice {
        match self {
            Choice::Later => Choice::Earlier,
            Choice::Earlier => Choice::Later,
        }
    }

    // Whether the upper signal waits.
    fn is_upper(self, upper: u32, lower: u32) -> bool {
        match self {
            Choice::Later => upper >= lower,
            Choice::Earlier => upper < lower,
        }
    }
}

fn waits_at_cross(upper: u32, lower: u32, choice: Choice) -> (u32, u32) {
    if upper.abs_diff(lower) >= LEAST_APART {
        (0, 0)
    } else if choice.is_upper(upper, lower) {
        (lower.saturating_add(APART).saturating_sub(upper), 0)
    } else {
        (0, upper.saturating_add(APART).saturating_sub(lower))
    }
}

/// Returns how many generations the upper signal of a tile waits, and the lower one, from how late they come.
pub fn waits_at(kind: TileKind, upper: u32, lower: u32, choice: Choice) -> (u32, u32) {
    match kind {
        TileKind::Cross => waits_at_cross(upper, lower, choice),
        TileKind::Fork | TileKind::Bump(_) => (0, 0),
        TileKind::Xor | TileKind::Or | TileKind::AndNot | TileKind::AndNotBelow => {
            (lower.saturating_sub(upper), upper.saturating_sub(lower))
        }
    }
}

/// Returns how many bumps a signal passes that waits so many generations.
pub fn bumps_of(wait: u32) -> u32 {
    wait.saturating_add(MOST - 1) / MOST
}
