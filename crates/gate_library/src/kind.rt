// The kinds of gates, and the turns in which they stand.

/// What a gate does. Each has one drawing, whose signals run east; docs/GATES.md shows them.
#[derive(Clone, Copy, PartialEq)]
pub enum Shape {
    /// One cell: an input, an output, or a point from which up to three wires go on.
    Lone,
    /// One signal goes on twice.
    Fork,
    /// 1 if at least one of the two is 1.
    Or,
    /// 1 if exactly one of the two is 1.
    Xor,
    /// The same in a diamond, with two exits.
    XorTwice,
    /// The upper signal without the lower one, which comes two generations earlier.
    AndNot,
    /// The upper signal without the lower one; both come at the same time.
    AndNotLevel,
    /// Two signals change places if they come far enough apart.
    Cross,
    /// The same, and the lower signal also goes on.
    Tap,
    /// The same, and both signals also go on.
    TapTwice,
}

/// The direction in which the signals run, and whether the drawing is mirrored at that direction first.
#[derive(Clone, Copy, PartialEq)]
pub enum Turn {
    East,
    EastMirrored,
    South,
    SouthMirrored,
    West,
    WestMirrored,
    North,
    NorthMirrored,
}

/// A gate's drawing: a shape in a turn.
#[derive(Clone, Copy, PartialEq)]
pub struct GateKind {
    pub shape: Shape,
    pub turn: Turn,
}
