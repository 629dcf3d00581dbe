//! The placer: turns a list of cells into a program on lanes.
//!
//! Where a lane is chosen: at the start by `homes_of` of `lane_homes`; in src/lanes.rt for a copy by `choose_free`, and
//! for two lanes that come side by side by `joining`.
//!
//! Theorem: `place` (`computes`, `lanes`, `instrs`).
#![tactic(auto)]

mod counting;
mod job;
mod lanes;
mod placing;
mod reading;
mod roles;
mod settling;
mod start;

use job::{CellKind, Job, NumberedCell, Travel};
use lanes::Lanes;
// The answer of `place` and `place_at` when memory runs out.
pub use lists::OutOfMemory as PlaceError;
pub use placing::{place, place_at};
use roles::{Role, Tag};
use settling::{settles, settling_swaps};
