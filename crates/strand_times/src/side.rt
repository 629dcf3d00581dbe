// What is true of a drawing is true of the drawing upside down.

/// The side from which a strand comes.
#[derive(Clone, Copy)]
pub enum Side {
    Above,
    Below,
}

impl Side {
    /// Of an upper strand and a lower one, returns the one on this side.
    pub fn near(self, pair: [u32; 2]) -> u32 {
        match self {
            Side::Above => pair[0],
            Side::Below => pair[1],
        }
    }

    /// Of an upper strand and a lower one, returns the one on the other side.
    pub fn far(self, pair: [u32; 2]) -> u32 {
        match self {
            Side::Above => pair[1],
            Side::Below => pair[0],
        }
    }

    /// Returns the strand on this side and the one on the other side, the upper one first.
    pub fn pair(self, near: u32, far: u32) -> [u32; 2] {
        match self {
            Side::Above => [near, far],
            Side::Below => [far, near],
        }
    }
}
