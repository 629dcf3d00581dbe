// How much work a search does.

/// How much work a search does: all of it, or a small part, which is enough to compare circuits.
#[derive(Clone, Copy)]
pub enum Effort {
    Brief,
    Whole,
}

impl Effort {
    /// Returns how much work is done, of so much in all.
    pub fn of(self, work: u64) -> u64 {
        match self {
            Effort::Brief => work / 8,
            Effort::Whole => work,
        }
    }
}
