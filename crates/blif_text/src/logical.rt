// The lines of a text, as the BLIF report of Berkeley joins them.
use lists::{Bytes, List};

/// A logical line: physical lines that are joined by `\`, without comments. `line` is the number of
/// its first physical line, from 1. In a line of a text `words` has at least one word; the rules
/// take a line without words as a row whose first word is empty.
#[derive(Drop)]
pub struct Logical {
    pub line: u64,
    pub words: List<Bytes>,
}
