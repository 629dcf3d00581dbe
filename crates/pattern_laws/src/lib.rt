//! Laws of what a pattern's text and its port table say, and more than a hundred texts with their readings.
//!
//! No crate stands on this one, so after a law or a text is added here, nothing else is proved again.
//!
//! Theorem: `pattern_laws`, `port_laws`, `whole_laws`.
#![tactic(auto)]

mod examples;
mod laws;

pub use examples::{faults_of_patterns, faults_of_ports, large_boxes, patterns_read, ports_read};
pub use laws::{
    line_laws, pattern_laws, place_laws, port_laws, reader_laws, spelled_pattern_laws,
    spelled_table_laws, whole_laws,
};
