//! Makes a plan of the columns of a program, with loops that bring back what leaves the columns, in one or several
//! contexts. In context c a loop starts at the edge that lies c tiles before its entry, on its way back.
//!
//! Theorem: `close` (`admissible`, `closed`, `same`, `contexts`), `start_contexts`, `most_contexts`, `starts_of`.
#![tactic(auto)]

mod closing;
pub mod laws;
mod loop_starts;
mod places;
mod starting;
mod walking;

pub use closing::{close, most_contexts};
// The answer of `close` and `start_contexts` when memory runs out.
pub use lists::OutOfMemory as CloseError;
pub use loop_starts::starts_of;
pub use starting::start_contexts;
pub use walking::tile_before;
