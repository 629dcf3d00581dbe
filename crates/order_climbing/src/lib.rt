//! Climbs through drafts of lists: a bare copy of the placer answers how many columns a draft takes, and small changes
//! that do not make the box larger are kept. Only the range of what is found is promised: whoever takes it checks it.
//!
//! Theorem: `climb`.
#![tactic(auto)]

mod climbing;
mod cooling;
mod lanes;
mod placing;
mod starting;

pub use starting::{Climbed, Start, climb};
