//! Writes the lines of a port table. It takes no memory.
//!
//! Theorem: `write_line` (`ok`, `front`, `cause`), `write_table`.
#![tactic(auto)]

mod line;
mod names;
mod table;

pub use line::write_line;
pub use table::write_table;
