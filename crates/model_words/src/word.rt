// Words with the numbers of their lines.

/// A name that stands in the models, with the number of its line.
#[derive(Clone, Copy)]
pub struct Word<'a> {
    pub line: u64,
    pub name: &'a [u8],
}
