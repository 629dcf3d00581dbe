//! Finds the first word that breaks each rule on subckt lines and their pins.
//!
//! Theorem: `missing_model`, `unknown_formal`, `pin_twice`, `pin_missing`.
#![tactic(auto)]

mod formals;
mod lines;
mod missing;
mod names;
mod offers;
mod placed;
mod repeated;

pub use formals::unknown_formal;
pub use missing::pin_missing;
pub use placed::missing_model;
pub use repeated::pin_twice;
