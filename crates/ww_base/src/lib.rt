//! Byte sources and sinks, over the standard streams and in memory; calls that read or write everything; and texts in
//! pieces that are gathered on pages.
//!
//! Theorem: `read_all` (`all`, `front`), `write_all` (`ok`, `front`), `write_pieces` (`ok`, `front`, `cause`).
#![tactic(auto)]

mod fakes;
mod page;
mod pieces;
mod standard;
mod streams;
mod wanted;
mod whole;

pub use fakes::{MemSink, MemSource};
// The answer of `MemSource::new` and `MemSink::new` when memory runs out.
pub use lists::OutOfMemory as FakeError;
pub use page::Page;
pub use pieces::write_pieces;
pub use standard::{StdSink, StdSource};
pub use streams::{Failed, Sink, Source};
pub use wanted::expect;
pub use whole::{ReadAllError, read_all, write_all};
