//! Tests whether a drawing keeps the timing law, by 32 steps of a small window.
//!
//! Theorem: `law_holds`, `window_step`.
#![tactic(auto)]

mod law;
mod window;

pub use law::law_holds;
pub use window::window_step;
