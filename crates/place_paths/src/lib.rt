//! The path by which a port table names the place of a model.
//!
//! Theorem: `path_of`, `paths_are_read`, `paths_are_distinct`.
#![tactic(auto)]

mod laws;
mod path;

pub use laws::{paths_are_distinct, paths_are_read};
pub use path::path_of;
