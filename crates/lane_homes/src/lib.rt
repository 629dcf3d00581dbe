//! Homes: the lanes on which inputs, loops and the dark lane stand at the start.
//!
//! Theorem: `homes_of`.
#![tactic(auto)]

mod apart;
mod homes;

pub use homes::homes_of;
