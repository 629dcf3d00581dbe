// How large the box of a routed circuit may be.

/// The greatest number of cells of a box that is looked at: 2^26.
pub const BOX_LIMIT: u64 = 67_108_864;
