//! The words of the command line: which command they ask for, with which values.
//!
//! Theorem: `command_of` (`ok`, `usage`, `written`), `written_words_are_commands`.
#![tactic(auto)]

mod app;
mod command;
mod error;
pub mod laws;
mod numbers;
mod program;

pub use command::{Command, View, command_of};
pub use error::WordsError;
