//! The program's one call: the words, the source and the two sinks go in, and an exit status comes out.
//!
//! Theorem: `run` (`headline`, `nets`, `routes`, `extracts`, `ends`).
#![tactic(auto)]

mod answer;
mod extract;
mod refusal;
mod report;
mod route;
mod task;
mod top;
mod words;

pub use answer::Answer;
pub use refusal::RouteRefusal;
pub use report::{Report, Size};
pub use task::Task;
pub use top::{Stop, run};
pub use words::Command;
