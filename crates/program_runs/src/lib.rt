//! What a run of the program did: the words for what it reads and writes, and why it does not end well, which are the
//! causes, each with its exit status and its one line.
//!
//! Theorem: `Refusal::status`, `Refusal::tell`.
#![tactic(auto)]

mod causes;
mod refusal;
mod told;

pub use causes::{Cause, TextError};
pub use refusal::Refusal;
