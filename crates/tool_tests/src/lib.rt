//! Tests of the words of the command line, and of whole runs over sources and sinks in memory.
#![tactic(auto)]

#[cfg(test)]
mod runs;
