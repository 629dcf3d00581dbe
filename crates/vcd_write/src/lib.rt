//! What VCD texts say (a part of the value change dump of IEEE 1364: variables of one bit), and a writer of what the nets
//! of a driven pattern show, cycle after cycle, as such a text. All nets are read in one run, and the text is written
//! without memory.
//!
//! Theorem: `of` (`near`, `quiet`, `waves`, `says`, `refused`); `write` (`ok`, `front`, `cause`); `texts_say_waves`,
//! `texts_read_as_one_form`, `ids_are_distinct`, `references_are_words`; definition `ReadsAsVcd`.
#![tactic(auto)]

mod due_bits;
mod dump;
mod first_bits;
mod laws;
mod lines;
mod net_bits;
mod packed_bits;
mod reading;
mod references;
mod text;
mod vcd;

pub use dump::of;
pub use laws::{
    ids_are_distinct, nets_have_their_bits, references_are_words, texts_read_as_one_form,
    texts_say_waves,
};
pub use packed_bits::PackedBits;
pub use text::write;
pub use vcd::Vcd;
