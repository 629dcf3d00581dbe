//! What an AIGER text in ASCII says: a circuit of AND gates, latches and inverters, or its first fault.
//!
//! Definition: `ReadsAsAig`, `HasAigFault`, `IsSoundAig`.
#![tactic(auto)]

mod aig;
mod fault;
pub mod laws;
mod section;

pub use aig::{Aig, AigAnd, AigLatch};
pub use fault::{AigFault, AigFaultKind};
pub use section::{Counts, Entry, Section, SymbolKind};
