// The nets that a table shows, and the ports at which they are seen.

use gate_library::DrawnPort;

/// The nets for which a table has lines.
#[derive(Clone, Copy)]
pub enum ShownNets {
    /// Those that are drawn.
    Drawn,
    /// All nets but the clock nets.
    All,
}

/// A port at which a net is seen, by its column and its row in the box, and the generation at which
/// it is lit first.
#[derive(Clone, Copy)]
pub struct SeenPort {
    pub port: DrawnPort,
    pub x: u32,
    pub y: u32,
    pub first: u64,
}
