//! Start words, such as `1:q=0`: the bit with which the latch of a net starts in a context.
//!
//! Theorem: `Starts::read` (`starts`, `fault`), `laws::starts_are_flat`, `laws::named_latches_are_joined`.
#![tactic(auto)]

mod error;
pub mod laws;
mod starts;
mod words;

pub use error::{StartError, StartFault, StartFaultKind};
pub use starts::Starts;
