//! Streams of bits for named inputs, read from words of the command line, such as `1:a=0110`; and the cuts of such words:
//! into a name and bits, and the name into the number of a context and a name.
//!
//! Theorem: `Streams::read` (`streams`, `fault`), `cut`, `cut_at_context`, `cut_if_several`, `with_context`.
#![tactic(auto)]

mod columns;
mod context_cuts;
mod cuts;
mod error;
mod examples;
mod stream_words;
mod streams;
mod words;

pub use columns::{bits_across, columns_of};
pub use context_cuts::{cut_at_context, cut_if_several, with_context};
pub use cuts::cut;
pub use error::{StreamError, StreamFault, StreamFaultKind};
pub use examples::stream_words_read;
pub use streams::Streams;
