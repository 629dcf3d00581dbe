//! A driven pattern in bands of rows, each at a generation of its own. Bands move on one at a time, in any order that
//! their neighbours allow, or all together.
//!
//! Theorem: `cell`, `advance`, `advance_all`, `skip`.
#![tactic(auto)]

mod awake;
mod band;
mod bands;
mod error;
mod making;
mod moving;
mod together;

pub use band::{calm_count, due_count};
pub use bands::Bands;
pub use error::{NotReady, NotSkipped};
// The answer of `Bands::new` when memory runs out.
pub use lists::OutOfMemory as BandsError;
