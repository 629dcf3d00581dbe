//! What a driven pattern shows at a net, and in a part of its plane.
//!
//! Theorem: `probe`, `window`.
#![tactic(auto)]

mod error;
mod probing;
mod viewing;

pub use error::{ProbeError, WindowError};
pub use probing::probe;
pub use viewing::window;
